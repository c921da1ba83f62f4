//! Grapheme clusters, a character at a time.
ghost use Rattle.std.specs.Prelude.{◌≡◌, true};
ghost use Rattle.ucd_breaks.specs.declared.GraphemeClusterBreak.{GraphemeClusterBreak};
ghost use Rattle.unicode_segmentation.specs.Grapheme.{break_by_pair, is_consonant, is_extend, is_regional, is_zwj};
ghost use Rattle.typst_lexer.specs.Bytes.{is_simple};
ghost use Rattle.typst_lexer.specs.Clusters.{cluster_of, extends_linker, is_linker, joins, joins_by_context, with_char};

use ucd_breaks::GraphemeClusterBreak;
use ucd_derived::IndicConjunctBreak;
use ucd_emoji::is_extended_pictographic;

/// A grapheme cluster, as far as it decides whether the next character belongs to it.
#[derive(Clone, Copy)]
pub struct Cluster {
    /// The class of its last character.
    pub last: GraphemeClusterBreak,
    /// It ends in a linker of a conjunct, with what extends that.
    pub linker: bool,
    /// It ends in a pictograph, with what extends that.
    pub pictograph: bool,
    /// It ends in a joiner after a pictograph.
    pub joiner: bool,
    /// It ends in the first half of a flag.
    pub half_flag: bool,
}

/// Whether the class is that of a linker of conjuncts.
fn is_linker(class: IndicConjunctBreak) -> bool
    ensures { result ≡ is_linker class }
{
    matches!(class, IndicConjunctBreak::Linker)
}

/// Whether the class is that of a consonant.
fn is_consonant(class: IndicConjunctBreak) -> bool
    ensures { result ≡ is_consonant class }
{
    matches!(class, IndicConjunctBreak::Consonant)
}

/// Whether a linker goes on over a character of the class.
fn extends_linker(class: IndicConjunctBreak) -> bool
    ensures { result ≡ extends_linker class }
{
    matches!(class, IndicConjunctBreak::Extend)
}

/// Whether a character of the class extends the one before it.
fn is_extend(class: GraphemeClusterBreak) -> bool
    ensures { result ≡ is_extend class }
{
    matches!(class, GraphemeClusterBreak::Extend)
}

/// Whether the class is that of a joiner.
fn is_zwj(class: GraphemeClusterBreak) -> bool
    ensures { result ≡ is_zwj class }
{
    matches!(class, GraphemeClusterBreak::Zwj)
}

/// Whether the class is that of half a flag.
fn is_regional(class: GraphemeClusterBreak) -> bool
    ensures { result ≡ is_regional class }
{
    matches!(class, GraphemeClusterBreak::RegionalIndicator)
}

/// Whether a cluster ends before a character of this class, if it ends in no class that says more.
fn breaks_before(next: GraphemeClusterBreak) -> Option<bool>
    ensures { result ≡ break_by_pair true GraphemeClusterBreak.Other next }
{
    match next {
        GraphemeClusterBreak::Control | GraphemeClusterBreak::Cr | GraphemeClusterBreak::Lf => Some(
            true,
        ),
        GraphemeClusterBreak::Extend
        | GraphemeClusterBreak::Zwj
        | GraphemeClusterBreak::SpacingMark => Some(false),
        _ => None,
    }
}

/// Whether a cluster that ends in a leading consonant of Hangul ends before the class.
fn breaks_leading(next: GraphemeClusterBreak) -> Option<bool>
    ensures { result ≡ break_by_pair true GraphemeClusterBreak.L next }
{
    match next {
        GraphemeClusterBreak::L
        | GraphemeClusterBreak::V
        | GraphemeClusterBreak::Lv
        | GraphemeClusterBreak::Lvt => Some(false),
        _ => breaks_before(next),
    }
}

/// Whether a cluster that ends in a vowel of Hangul ends before the class.
fn breaks_vowel(next: GraphemeClusterBreak) -> Option<bool>
    ensures { result ≡ break_by_pair true GraphemeClusterBreak.V next }
{
    match next {
        GraphemeClusterBreak::V | GraphemeClusterBreak::T => Some(false),
        _ => breaks_before(next),
    }
}

/// Whether a cluster that ends in a trailing consonant of Hangul ends before the class.
fn breaks_trailing(next: GraphemeClusterBreak) -> Option<bool>
    ensures { result ≡ break_by_pair true GraphemeClusterBreak.T next }
{
    match next {
        GraphemeClusterBreak::T => Some(false),
        _ => breaks_before(next),
    }
}

/// Whether a cluster that ends in a carriage return ends before the class.
fn breaks_return(next: GraphemeClusterBreak) -> Option<bool>
    ensures { result ≡ break_by_pair true GraphemeClusterBreak.Cr next }
{
    match next {
        GraphemeClusterBreak::Lf => Some(false),
        _ => Some(true),
    }
}

/// Whether a cluster that ends in a prepended sign ends before the class.
fn breaks_prepended(next: GraphemeClusterBreak) -> Option<bool>
    ensures { result ≡ break_by_pair true GraphemeClusterBreak.Prepend next }
{
    match next {
        GraphemeClusterBreak::Control | GraphemeClusterBreak::Cr | GraphemeClusterBreak::Lf => Some(
            true,
        ),
        _ => Some(false),
    }
}

/// Whether the classes of two neighbors break a cluster between them, if they decide it.
fn break_by_pair(last: GraphemeClusterBreak, next: GraphemeClusterBreak) -> Option<bool>
    ensures { result ≡ break_by_pair true last next }
{
    match last {
        GraphemeClusterBreak::Cr => breaks_return(next),
        GraphemeClusterBreak::Control => Some(true),
        GraphemeClusterBreak::Lf => Some(true),
        GraphemeClusterBreak::L => breaks_leading(next),
        GraphemeClusterBreak::Lv => breaks_vowel(next),
        GraphemeClusterBreak::V => breaks_vowel(next),
        GraphemeClusterBreak::Lvt => breaks_trailing(next),
        GraphemeClusterBreak::T => breaks_trailing(next),
        GraphemeClusterBreak::Prepend => breaks_prepended(next),
        _ => breaks_before(next),
    }
}

/// The cluster of a single character, by its properties.
fn cluster_by_tables(c: char) -> Cluster
    ensures { result ≡ cluster_of c }
{
    let last = GraphemeClusterBreak::for_char(c);
    Cluster {
        last,
        linker: is_linker(IndicConjunctBreak::for_char(c)),
        pictograph: is_extended_pictographic(c),
        joiner: false,
        half_flag: is_regional(last),
    }
}

/// Whether the character is one of ASCII that is no control character. It has no properties that a cluster needs.
fn is_simple(c: char) -> bool
    ensures { result ≡ is_simple c }
{
    c >= ' ' && c <= '~'
}

/// The cluster of a single character.
pub fn cluster_of(c: char) -> Cluster
    ensures { result ≡ cluster_of c }
{
    if is_simple(c) {
        Cluster {
            last: GraphemeClusterBreak::Other,
            linker: false,
            pictograph: false,
            joiner: false,
            half_flag: false,
        }
    } else {
        cluster_by_tables(c)
    }
}

/// The cluster with one more character.
pub fn with_char(cluster: Cluster, c: char) -> Cluster
    ensures { result ≡ with_char cluster c }
{
    let last = GraphemeClusterBreak::for_char(c);
    let class = IndicConjunctBreak::for_char(c);
    Cluster {
        last,
        linker: is_linker(class) || extends_linker(class) && cluster.linker,
        pictograph: is_extended_pictographic(c) || is_extend(last) && cluster.pictograph,
        joiner: is_zwj(last) && cluster.pictograph,
        half_flag: is_regional(last) && !cluster.half_flag,
    }
}

/// Whether the next character belongs to the cluster for more than its last character.
fn joins_by_context(cluster: Cluster, c: char) -> bool
    ensures { result ≡ joins_by_context cluster c }
{
    cluster.linker && is_consonant(IndicConjunctBreak::for_char(c))
        || cluster.joiner && is_extended_pictographic(c)
        || cluster.half_flag && is_regional(GraphemeClusterBreak::for_char(c))
}

/// Whether the next character belongs to the cluster.
pub fn joins(cluster: Cluster, c: char) -> bool
    ensures { result ≡ joins cluster c }
{
    match break_by_pair(cluster.last, GraphemeClusterBreak::for_char(c)) {
        Some(breaks) => !breaks,
        None => joins_by_context(cluster, c),
    }
}
