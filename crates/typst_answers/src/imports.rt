//! What imports answer.

use crate::answers::Answers;
use crate::lists::both_of;
use crate::names::{is_name, package};
use crate::subject::Subject;
use typst_tree::SyntaxKind;
use typst_tree::ast::{
    ImportItem, ImportItemPath, ImportItems, Imports, ModuleImport, ModuleInclude,
    RenamedImportItem,
};

/// What the accessors of a node or a placeholder answer. For a kind of another module there is no answer.
pub fn answer(out: &mut Answers, subject: Subject) {
    match subject.kind() {
        SyntaxKind::ImportItemPath => import_item_path(out, subject.view()),
        SyntaxKind::RenamedImportItem => renamed_import_item(out, subject.view()),
        SyntaxKind::ImportItems => import_items(out, subject.view()),
        SyntaxKind::ModuleImport => module_import(out, subject.view()),
        SyntaxKind::ModuleInclude => out.expr_view(
            "source",
            subject.view::<ModuleInclude>().source(),
        ),
        _ => {}
    }
}

/// What the path of an imported item answers.
fn import_item_path(out: &mut Answers, path: ImportItemPath) {
    out.items("iter", path.iter());
    out.view("name", path.name());
}

/// What an imported item with a new name answers.
fn renamed_import_item(out: &mut Answers, item: RenamedImportItem) {
    out.view("path", item.path());
    out.view("original_name", item.original_name());
    out.view("new_name", item.new_name());
}

/// What the items of an import answer.
fn import_items(out: &mut Answers, items: ImportItems) {
    match items.iter().collect::<Vec<ImportItem>>(out.alloc) {
        Ok(listed) => import_item_list(out, &listed),
        Err(_) => out.refuse(),
    }
    out.warn_of_ends(&both_of(out.alloc, items.iter()));
}

/// Writes the items of an import, one after the other.
fn import_item_list(out: &mut Answers, items: &[ImportItem]) {
    out.begin("iter");
    out.put("[");
    for (index, item) in items.iter().enumerate() {
        out.put_comma(index);
        import_item(out, *item);
    }
    out.put("]");
    out.end();
}

/// Writes the item, then its path, its own name and the name that it is bound to.
fn import_item(out: &mut Answers, item: ImportItem) {
    put_form(out, item);
    out.put_next(item.path());
    out.put_next(item.original_name());
    out.put_next(item.bound_name());
}

/// Writes the form of an item.
fn put_form(out: &mut Answers, item: ImportItem) {
    match item {
        ImportItem::Simple(path) => out.put_wrapped("Simple", path),
        ImportItem::Renamed(renamed) => out.put_wrapped("Renamed", renamed),
    }
}

/// What an import answers.
fn module_import(out: &mut Answers, import: ModuleImport) {
    out.expr_view("source", import.source());
    imports(out, import.imports());
    out.option("new_name", import.new_name());
    bare_name(out, import);
}

/// What an import brings in.
fn imports(out: &mut Answers, imports: Option<Imports>) {
    match imports {
        None => out.word("imports", "none"),
        Some(Imports::Wildcard) => out.word("imports", "Wildcard"),
        Some(Imports::Items(items)) => out.wrapped("imports", "Items", items),
    }
}

/// The name that an import brings in.
fn bare_name(out: &mut Answers, import: ModuleImport) {
    let alloc = out.alloc;
    match import.bare_name(alloc, is_name, |text: &str| package(alloc, text)) {
        Ok(name) => out.debugged("bare_name", name),
        Err(_) => out.refuse(),
    }
}
