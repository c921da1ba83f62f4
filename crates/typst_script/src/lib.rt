//! The language of scripts that build, number, edit, search and show syntax trees, for programs that read it.
//!
//! [`Command::parse`] reads a line, and [`Interpreter::obey`] carries it out on a stack of nodes, a tree, and a queue
//! of requests that the next `run` serves. [`script::run`] does so for each line of a reader. A program with lines of
//! its own reads their words with [`words`], builds its nodes on the interpreter's stack, and ends with the same
//! [`Fault`]s.
//!
//! A script of six lines makes a tree of two leaves, numbers its nodes and prints it:
//!
//! ```text
//! leaf 6 ab
//! leaf 6 c
//! inner 5 2
//! root
//! number 1 2 14
//! show
//! ```
//!
//! It prints one line for each node: the kind's number, the node's number, the bound, the length in bytes and the text.
//!
//! ```text
//! 5 3 14 3
//!   6 5 6 2 ab
//!   6 7 8 1 c
//! ```
//!
//! Four more lines put a leaf after the first, and look for the node that then has the number 6:
//!
//! ```text
//! leaf 6 x
//! replace - 1 1 1
//! find 1 6
//! run
//! ```
//!
//! Each reply is a line:
//!
//! ```text
//! done window 0..3 tried 2
//! found 2 offset 3
//! ```
//!
//! | line | does |
//! |---|---|
//! | `leaf K TEXT`, `error MESSAGE<tab>TEXT` | pushes a node |
//! | `inner K N` | pops N nodes, and pushes their parent |
//! | `warn M` | puts a warning around the newest node |
//! | `root` | the stack's only node becomes the tree |
//! | `number F LO HI` | numbers the tree for file F, or prints `refused` |
//! | `replace PATH A B N` | pops N nodes, and queues them for the children A..B of the node at the path |
//! | `find F NUM` | queues a search for the node with this number |
//! | `run` | serves the queue, prints one line for each reply, and empties the queue |
//! | `show` | prints the tree |
//!
//! A path is `-` for the root, or child indices joined by dots. A reply is `done window A..B tried T`, `refused`,
//! `overflow`, `no memory`, `misfit`, `found PATH offset O` or `not found`.
#![tactic(auto)]

pub use command::Command;
pub use command_error::CommandError;
pub use fault::Fault;
pub use interpreter::Interpreter;
pub use path::Path;
pub use tree::ScriptTree;

pub mod command;
mod command_error;
pub mod fault;
pub mod input;
pub mod interpreter;
mod path;
pub mod reply;
pub mod script;
mod show;
mod tree;
pub mod words;
