//! The commands of a script, each read from one line.
ghost use Rattle.std.specs.Prelude.{◌≡◌, ◌++◌, Some, IfSome, IsSome, codes};
ghost use Rattle.typst_script.specs.Command.{IsLineOf};
ghost use Rattle.typst_script.specs.declared.command.Command.{Command};
ghost use Rattle.typst_script.specs.declared.command.Command.TheVariants.{Root, Run, Show};

use crate::path::Path;
use crate::words;
use typst_tree::{FileId, SyntaxKind};

/// The command that one line asks for.
#[derive(Clone, Copy, Debug, PartialEq, Eq)]
pub enum Command<'a> {
    /// `leaf K TEXT`: pushes a leaf. The text is everything after the second blank.
    Leaf {
        kind: SyntaxKind,
        text: &'a str,
    },
    /// `error MESSAGE<tab>TEXT`: pushes an error. The text is everything after the first tab.
    Error {
        message: &'a str,
        text: &'a str,
    },
    /// `warn M`: puts a warning around the newest node. The message is everything after the first blank.
    Warn {
        message: &'a str,
    },
    /// `inner K N`: pops N nodes and pushes their parent.
    Inner {
        kind: SyntaxKind,
        count: u64,
    },
    /// `root`: the stack's only node becomes the tree.
    Root,
    /// `number F LO HI`: numbers the tree for a file, from LO up to, not including, HI.
    Number {
        file: FileId,
        low: u64,
        high: u64,
    },
    /// `replace PATH A B N`: pops N nodes and queues a request that they replace the children A..B of the node at the
    /// path.
    Replace {
        path: Path<'a>,
        start: u64,
        end: u64,
        count: u64,
    },
    /// `find F NUM`: queues a search for the node with this number in a file.
    Find {
        file: FileId,
        number: u64,
    },
    /// `run`: serves the queue on the tree, prints one line for each reply, and empties the queue.
    Run,
    /// `show`: prints the tree.
    Show,
}

/// The number after the highest number that a node may have.
const NUMBERS_END: u64 = 1 << 47;

impl<'a> Command<'a> {
    /// The command that a line, without its end, asks for. None if the line is no command, such as an empty line.
    pub fn parse(line: &'a str) -> Option<Command<'a>>
        ensures reads { IfSome result (λ command. IsLineOf command line.now) }
        ensures every { (command : Command) → IsLineOf command line.now → IsSome result }
    {
        let Some((word, rest)) = words::first_word(line) else {
            return Command::lone(line);
        };
        match word {
            "leaf" => Command::leaf(rest),
            "error" => Command::error(rest),
            "warn" => Some(Command::Warn { message: rest }),
            "inner" => Command::inner(rest),
            "number" => Command::number(rest),
            "replace" => Command::replace(rest),
            "find" => Command::find(rest),
            _ => None,
        }
    }

    /// The command of a line that is one word.
    fn lone(line: &'a str) -> Option<Command<'a>>
        ensures root { line.now ≡ codes "root" → result ≡ Some Root }
        ensures run { line.now ≡ codes "run" → result ≡ Some Run }
        ensures show { line.now ≡ codes "show" → result ≡ Some Show }
        ensures reads { IfSome result (λ command. IsLineOf command line.now) }
    {
        match line {
            "root" => Some(Command::Root),
            "run" => Some(Command::Run),
            "show" => Some(Command::Show),
            _ => None,
        }
    }

    /// Reads what follows `leaf` as a command.
    fn leaf(rest: &'a str) -> Option<Command<'a>>
        ensures reads { IfSome result (λ command. IsLineOf command (codes "leaf " ++ rest.now)) }
        ensures every { (command : Command) → IsLineOf command (codes "leaf " ++ rest.now) → IsSome result }
    {
        let (kind, text) = words::first_word(rest)?;
        let kind = words::kind(kind)?;
        Some(Command::Leaf { kind, text })
    }

    /// Reads what follows `error` as a command.
    fn error(rest: &'a str) -> Option<Command<'a>>
        ensures reads { IfSome result (λ command. IsLineOf command (codes "error " ++ rest.now)) }
        ensures every { (command : Command) → IsLineOf command (codes "error " ++ rest.now) → IsSome result }
    {
        let (message, text) = words::until_tab(rest)?;
        Some(Command::Error { message, text })
    }

    /// Reads what follows `inner` as a command.
    fn inner(rest: &'a str) -> Option<Command<'a>>
        ensures reads { IfSome result (λ command. IsLineOf command (codes "inner " ++ rest.now)) }
        ensures every { (command : Command) → IsLineOf command (codes "inner " ++ rest.now) → IsSome result }
    {
        let (kind, count) = words::first_word(rest)?;
        let kind = words::kind(kind)?;
        let count = words::number(count)?;
        Some(Command::Inner { kind, count })
    }

    /// Reads what follows `number` as a command.
    fn number(rest: &'a str) -> Option<Command<'a>>
        ensures reads { IfSome result (λ command. IsLineOf command (codes "number " ++ rest.now)) }
        ensures every { (command : Command) → IsLineOf command (codes "number " ++ rest.now) → IsSome result }
    {
        let (file, rest) = words::first_word(rest)?;
        let (low, high) = words::first_word(rest)?;
        let file = words::file(file)?;
        let low = words::number(low)?;
        let high = words::number(high)?;
        if low < 2 || high > NUMBERS_END {
            return None;
        }
        Some(Command::Number { file, low, high })
    }

    /// Reads what follows `replace` as a command.
    fn replace(rest: &'a str) -> Option<Command<'a>>
        ensures reads { IfSome result (λ command. IsLineOf command (codes "replace " ++ rest.now)) }
        ensures every { (command : Command) → IsLineOf command (codes "replace " ++ rest.now) → IsSome result }
    {
        let (path, rest) = words::first_word(rest)?;
        let (start, rest) = words::first_word(rest)?;
        let (end, count) = words::first_word(rest)?;
        let start = words::number(start)?;
        let end = words::number(end)?;
        let count = words::number(count)?;
        let path = Path::parse(path)?;
        Some(Command::Replace {
            path,
            start,
            end,
            count,
        })
    }

    /// Reads what follows `find` as a command.
    fn find(rest: &'a str) -> Option<Command<'a>>
        ensures reads { IfSome result (λ command. IsLineOf command (codes "find " ++ rest.now)) }
        ensures every { (command : Command) → IsLineOf command (codes "find " ++ rest.now) → IsSome result }
    {
        let (file, number) = words::first_word(rest)?;
        let file = words::file(file)?;
        let number = words::number(number)?;
        if number < 2 || number >= NUMBERS_END {
            return None;
        }
        Some(Command::Find { file, number })
    }
}
