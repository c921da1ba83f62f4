//! The names that imports give their modules.
ghost use Rattle.std.specs.Prelude.{◌≡◌, ◌≢◌, Err, IfOk, string_bytes};
ghost use Rattle.std.specs.Fn.{FnReturnsAt};
ghost use Rattle.typst_ast.specs.BareNames.{import_kind, import_source, IsAccepted, IsDynamic, IsFileName, IsImportName, IsName, IsPackageName, IsSourceName, IsStringName};
ghost use Rattle.typst_ast.specs.View.{node_of};
ghost use Rattle.typst_node.specs.Children.{last_child};
ghost use Rattle.typst_atoms.specs.Kinds.{is_kind};
ghost use Rattle.typst_atoms.specs.Texts.{text_in};
ghost use Rattle.typst_atoms.specs.View.{atom_node};
ghost use Rattle.typst_base.specs.declared.kind.SyntaxKind.TheVariants as kinds;

use crate::expr::Expr;
use crate::paths::file_stem;
use crate::views::{ModuleImport, Str};
use std::alloc::{AllocError, Global};

/// Why an import gives its module no name.
#[derive(Clone, Copy, Debug, PartialEq, Eq, Hash)]
pub enum BareImportError {
    /// The source is computed: it is not a name, a field or a string.
    Dynamic,
    /// The path has no file stem, or the name is not an identifier.
    PathInvalid,
    /// The text after an `@` names no package.
    PackageInvalid,
}

/// A name, or the reason why there is none. It fails if memory is refused.
pub type BareNameResult = Result<Result<String, BareImportError>, AllocError>;

/// The name, if it is an identifier.
fn accepted<I: Fn(&str) -> bool>(name: String, is_ident: &I) -> Result<String, BareImportError>
    requires { I.IsAlwaysCallable is_ident.now }
    ensures { IsAccepted (FnReturnsAt I.Fn is_ident.now) (string_bytes name) result }
{
    if is_ident(name.as_str()) {
        Ok(name)
    } else {
        Err(BareImportError::PathInvalid)
    }
}

/// The name of the package.
fn package_name<I, P>(text: &str, is_ident: &I, package: &P) -> BareNameResult
where
    I: Fn(&str) -> bool,
    P: Fn(&str) -> Result<Option<String>, AllocError>,
    requires ident_callable { I.IsAlwaysCallable is_ident.now }
    requires package_callable { P.IsAlwaysCallable «package».now }
    ensures { IfOk result (IsPackageName (FnReturnsAt I.Fn is_ident.now) (FnReturnsAt P.Fn «package».now) text.now) }
{
    match package(text)? {
        Some(name) => Ok(accepted(name, is_ident)),
        None => Ok(Err(BareImportError::PackageInvalid)),
    }
}

/// The name of the file.
fn file_name<I: Fn(&str) -> bool>(alloc: Global, path: &str, is_ident: &I) -> BareNameResult
    requires { I.IsAlwaysCallable is_ident.now }
    ensures { IfOk result (IsFileName (FnReturnsAt I.Fn is_ident.now) path.now) }
{
    match file_stem(path) {
        Some(stem) => Ok(accepted(String::from_str(alloc, stem)?, is_ident)),
        None => Ok(Err(BareImportError::PathInvalid)),
    }
}

/// The name of the package or the file.
fn import_name<I, P>(alloc: Global, text: &str, is_ident: &I, package: &P) -> BareNameResult
where
    I: Fn(&str) -> bool,
    P: Fn(&str) -> Result<Option<String>, AllocError>,
    requires ident_callable { I.IsAlwaysCallable is_ident.now }
    requires package_callable { P.IsAlwaysCallable «package».now }
    ensures { IfOk result (IsImportName (FnReturnsAt I.Fn is_ident.now) (FnReturnsAt P.Fn «package».now) text.now) }
{
    match text.as_bytes() {
        [b'@', ..] => package_name(text, is_ident, package),
        _ => file_name(alloc, text, is_ident),
    }
}

/// A copy of the name.
fn copied(alloc: Global, text: &str) -> BareNameResult
    ensures { IfOk result (IsName text.now) }
{
    Ok(Ok(String::from_str(alloc, text)?))
}

/// The name that a string gives to the module.
fn string_name<I, P>(alloc: Global, string: Str, is_ident: &I, package: &P) -> BareNameResult
where
    I: Fn(&str) -> bool,
    P: Fn(&str) -> Result<Option<String>, AllocError>,
    requires ident_callable { I.IsAlwaysCallable is_ident.now }
    requires package_callable { P.IsAlwaysCallable «package».now }
    ensures { IfOk result (IsStringName (FnReturnsAt I.Fn is_ident.now) (FnReturnsAt P.Fn «package».now)
        (text_in (atom_node string.entry))) }
{
    let text = string.get(alloc)?;
    import_name(alloc, text.as_str(), is_ident, package)
}

impl<'a> ModuleImport<'a> {
    /// The name that the module gets from the source, if the import gives it no other name.
    ///
    /// A name gives itself, and a field access gives the name of the field. A string that begins with `@` gives the
    /// name of a package. Any other string gives the [`file_stem`] of its path. `is_ident` tells which texts are
    /// identifiers, and `package` tells which package a text names. If `package` fails because memory is refused, this
    /// call fails, too. It takes memory in proportion to the text.
    pub fn bare_name<I, P>(self, alloc: Global, is_ident: I, package: P) -> BareNameResult
    where
        I: Fn(&str) -> bool,
        P: Fn(&str) -> Result<Option<String>, AllocError>,
        requires ident_callable { I.IsAlwaysCallable is_ident }
        requires package_callable { P.IsAlwaysCallable «package» }
        ensures ident { import_kind (node_of self.entry) ≡ kinds.Ident
            → IfOk result (IsName (text_in (import_source (node_of self.entry)))) }
        ensures field { import_kind (node_of self.entry) ≡ kinds.FieldAccess
            → IfOk result (IsName (text_in (last_child (is_kind kinds.Ident) (import_source (node_of self.entry))))) }
        ensures string { import_kind (node_of self.entry) ≡ kinds.Str
            → IfOk result (IsSourceName (FnReturnsAt I.Fn is_ident) (FnReturnsAt P.Fn «package») (node_of self.entry)) }
        ensures dynamic { IsDynamic (node_of self.entry) → IfOk result (λ name. name ≡ Err BareImportError.Dynamic) }
    {
        match self.source() {
            Expr::Ident(name) => copied(alloc, name.get()),
            Expr::FieldAccess(access) => copied(alloc, access.field().get()),
            Expr::Str(string) => string_name(alloc, string, &is_ident, &package),
            _ => Ok(Err(BareImportError::Dynamic)),
        }
    }
}
