//! Texts in which the same piece comes again and again.
use std::alloc::{AllocError, Global};

/// A text that repeats a piece behind a beginning.
struct Repeat {
    name: &'static str,
    head: &'static str,
    piece: &'static str,
}

/// A function as in a package for Typst.
const FUNCTION: &str = "#let entry(title, page, fill: 1fr) = {
  // The page stands at the right margin.
  let width = measure(title).width + 2em
  if width > page.width {
    return par(hanging-indent: 1em, title)
  }
  box(width: fill, stroke: none, title)
}

";

/// An equation as in a textbook.
const EQUATION: &str =
    "$ sum_(k = 1)^n k^2 = (n (n + 1) (2 n + 1)) / 6 quad \"for all\" n in NN $\n\n";

/// What such texts are made of: functions, equations, delimiters that nothing closes, operators, fields, calls and items.
const REPEATS: &[Repeat] = &[
    Repeat {
        name: "code",
        head: "",
        piece: FUNCTION,
    },
    Repeat {
        name: "equations",
        head: "",
        piece: EQUATION,
    },
    Repeat {
        name: "stars",
        head: "",
        piece: "*",
    },
    Repeat {
        name: "nested",
        head: "",
        piece: "_*",
    },
    Repeat {
        name: "round",
        head: "#",
        piece: "(",
    },
    Repeat {
        name: "square",
        head: "#",
        piece: "[",
    },
    Repeat {
        name: "curly",
        head: "#",
        piece: "{",
    },
    Repeat {
        name: "dollars",
        head: "",
        piece: "$",
    },
    Repeat {
        name: "minus",
        head: "#(",
        piece: "-a",
    },
    Repeat {
        name: "fields",
        head: "#a",
        piece: ".b",
    },
    Repeat {
        name: "calls",
        head: "#",
        piece: "f(",
    },
    Repeat {
        name: "items",
        head: "",
        piece: "- ",
    },
];

/// The same piece so often, behind a beginning.
pub fn repeated(
    alloc: Global,
    head: &str,
    piece: &str,
    pieces: usize,
) -> Result<String, AllocError> {
    let mut text = String::from_str(alloc, head)?;
    for _ in 0..pieces {
        text.push_str(piece)?;
    }
    Ok(text)
}

/// The text of this name with so many pieces. `keys` is a dictionary with as many names. None if there is no such text.
pub fn text_of(alloc: Global, name: &str, pieces: usize) -> Result<Option<String>, AllocError> {
    if name == "keys" {
        return Ok(Some(dictionary(alloc, pieces)?));
    }
    for it in REPEATS {
        if it.name == name {
            return Ok(Some(repeated(alloc, it.head, it.piece, pieces)?));
        }
    }
    Ok(None)
}

/// A dictionary with so many names, which all have six letters.
fn dictionary(alloc: Global, names: usize) -> Result<String, AllocError> {
    let mut text = String::from_str(alloc, "#(")?;
    for number in 0..names {
        write!(text, "k{:05}:1,", number)?;
    }
    text.push_str(")")?;
    Ok(text)
}
