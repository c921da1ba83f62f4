//! The words of `./show`.

use clap::builder::ValueParser;
use clap::{Arg, ArgAction, ArgMatches, Command, Error};
use std::alloc::{AllocError, Global};
use typst_shown::of_kind::kind_named;
use typst_shown::{Asked, Form, Manner, Problem, Wanted};

/// What `--help` prints below the words.
const AFTER_HELP: &str = "\
FILE is a text of Typst. If its name ends in .script or .look, it is a script or a look, which builds a tree.
Each line of EDITS is an edit: 7..12 \"text\" in bytes, or 2:5..2:9 \"text\" in lines and columns, which count from 1.
In the quotes the escapes are those of Rust. docs/SHOW.md explains what is shown.
The status is 0 if the text has no error, 1 if it has one, 2 if the words, an edit or a script are wrong, and 3 if a file
can't be read or written or memory runs out.
";

/// What `clap` finds in the words. The error also carries what is printed for words that ask for help or for the version.
pub(crate) fn matches_of<'a>(alloc: Global, words: &'a [String]) -> Result<ArgMatches<'a>, Error> {
    command(alloc)?.try_get_matches_from(words)
}

/// What the words ask for.
pub(crate) fn asked_by<'a>(
    alloc: Global,
    matches: &ArgMatches<'a>,
    is_coloured: bool,
) -> Result<Asked<'a>, Problem<'a>> {
    Ok(Asked {
        // FILE is required, so it is there.
        file: matches.get_str("file").unwrap_or(""),
        edits: matches.get_str("edits"),
        form: form_of(alloc, matches)?,
        wanted: Wanted {
            depth: matches.get_one("depth"),
            lines: lines_of(matches)?,
        },
        manner: Manner {
            has_places: matches.get_flag("places"),
            is_coloured,
        },
    })
}

/// How the tree is shown. A page always has what views answer.
fn form_of<'a>(alloc: Global, matches: &ArgMatches<'a>) -> Result<Form<'a>, Problem<'a>> {
    if let Some(page) = matches.get_str("page") {
        return Ok(Form::Page(page));
    }
    if let Some(name) = matches.get_str("kind") {
        return match kind_named(alloc, name)? {
            Some(kind) => Ok(Form::Kind(kind)),
            None => Err(Problem::NoKind { name }),
        };
    }
    if matches.get_flag("views") {
        Ok(Form::Views)
    } else if matches.get_flag("plain") {
        Ok(Form::Plain)
    } else {
        Ok(Form::Tree)
    }
}

/// The first and the last line that are shown, if lines are asked for.
fn lines_of<'a>(matches: &ArgMatches<'a>) -> Result<Option<(usize, usize)>, Problem<'a>> {
    let Some(word) = matches.get_str("lines") else {
        return Ok(None);
    };
    let (first, last) = word.split_once('-').unwrap_or((word, word));
    match (first.parse::<usize>(), last.parse::<usize>()) {
        (Ok(first), Ok(last)) if 0 < first && first <= last => Ok(Some((first, last))),
        _ => Err(Problem::NoLines { word }),
    }
}

/// The words that `./show` takes.
fn command<'a>(alloc: Global) -> Result<Command<'a>, AllocError> {
    with_parts(alloc, with_forms(alloc, described(alloc)?)?)
}

/// The command without words.
fn described<'a>(alloc: Global) -> Result<Command<'a>, AllocError> {
    let command = Command::new(alloc, "show")
        .bin_name("./show")?
        .version("0.2.0")
        .about("Shows the syntax tree of a text or a script")
        .after_help(AFTER_HELP);
    Ok(command)
}

/// Adds the words that say what is shown, and in which form.
fn with_forms<'a>(alloc: Global, command: Command<'a>) -> Result<Command<'a>, AllocError> {
    let file = named(alloc, "file", "FILE").required(true).help(
        "The text or script whose tree is shown; - reads a text from standard input",
    );
    let edits = named(alloc, "edits", "EDITS").long("edits").help(
        "Makes the edits in this file, and says what each did; - reads them from standard input",
    );
    let page = named(alloc, "page", "OUT.html").long("page").help(
        "Writes a page for a browser; - writes it to standard output",
    );
    let views = flag(alloc, "views").help("Shows below each node what its view answers");
    let plain = flag(alloc, "plain").help(
        "Shows only kinds and texts; with --edits only the tree after all edits",
    );
    command
        .arg(file)?
        .arg(edits)?
        .arg(page)?
        .arg(views)?
        .arg(plain.conflicts_with("page")?.conflicts_with("views")?)
}

/// Adds the words that say which nodes are shown, and what is told of each.
fn with_parts<'a>(alloc: Global, command: Command<'a>) -> Result<Command<'a>, AllocError> {
    let kind = named(alloc, "kind", "KIND").long("kind").help(
        "Shows only the nodes of this kind, a line each, with their lines and columns",
    );
    let kind = kind.conflicts_with("page")?.conflicts_with("views")?;
    let depth = Arg::new(alloc, "depth")
        .long("depth")
        .value_name("N")
        .value_parser(ValueParser::Unsigned(0, 1_000_000))
        .help("Shows only nodes with at most this many nodes above them");
    let lines = named(alloc, "lines", "A-B")
        .long("lines")
        .help("Shows only the nodes of these lines of the text");
    let places = flag(alloc, "places").help("Shows the line and column of each node");
    command
        .arg(kind.conflicts_with("plain")?)?
        .arg(depth.conflicts_with("plain")?)?
        .arg(lines.conflicts_with("plain")?)?
        .arg(places.conflicts_with("plain")?)
}

/// A word that has a value, which isn't empty.
fn named<'a>(alloc: Global, id: &'a str, name: &'a str) -> Arg<'a> {
    Arg::new(alloc, id)
        .value_name(name)
        .value_parser(ValueParser::NonEmptyString)
}

/// A word that may be there or not.
fn flag<'a>(alloc: Global, name: &'a str) -> Arg<'a> {
    Arg::new(alloc, name).long(name).action(ArgAction::SetTrue)
}
