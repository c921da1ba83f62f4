//! What the accessors of typed views answer of a node.
ghost use Rattle.std.specs.Prelude.{◌≡◌, MatchOption, IfOk, IfErr};
ghost use Rattle.typst_accessors.specs.Accessors.{accessor_number};
ghost use Rattle.typst_session.specs.Views.{form_of, integer_of, number_of, text_of, IsNoAccessor, ReadsView, TellsAnswer};

use crate::reading::write_bytes;
use crate::refusal::Refusal;
use crate::session::Session;
use std::alloc::Global;
use typst_accessors::{Accessor, Answer};

/// What a call tells of an answer. What the answer doesn't have is 0.
#[repr(C)]
#[derive(Clone, Copy, Drop)]
pub struct ViewAnswer {
    /// The natural number, 1 for true and 0 for false, the code of a character, or the number of a node.
    pub number: u64,
    /// The integer with a sign.
    pub integer: i64,
    /// The length of the text in bytes.
    pub len: usize,
    /// 0 for nothing, 1 for a boolean, 2 for a natural number, 3 for an integer with a sign, 4 for a character, 5 for a
    /// text, and 6 for a node.
    pub form: u32,
}

/// What is asked of a node.
#[derive(Clone, Copy, Drop)]
pub struct Asked {
    /// The number of an accessor.
    pub accessor: u32,
    /// Which of its answers, counted from 0.
    pub index: usize,
}

/// The form of an answer.
fn form_of(answer: &Answer) -> u32
    ensures { result ≡ form_of answer.now }
{
    match answer {
        Answer::Nothing => 0,
        Answer::Flag(_) => 1,
        Answer::Natural(_) => 2,
        Answer::Integer(_) => 3,
        Answer::Character(_) => 4,
        Answer::Text(_) => 5,
        Answer::Owned(_) => 5,
        Answer::Node(_) => 6,
    }
}

/// The number of an answer.
fn number_of(answer: &Answer) -> u64
    ensures { result ≡ number_of answer.now }
{
    match answer {
        Answer::Flag(true) => 1,
        Answer::Natural(number) => *number,
        Answer::Character(character) => *character as u64,
        Answer::Node(node) => node.span().number(),
        _ => 0,
    }
}

/// The integer of an answer.
fn integer_of(answer: &Answer) -> i64
    ensures { result ≡ integer_of answer.now }
{
    match answer {
        Answer::Integer(value) => *value,
        _ => 0,
    }
}

/// The text of an answer. It is empty if the answer is none.
fn text_of<'b>(answer: &'b Answer) -> &'b [u8]
    ensures { result.now ≡ text_of answer.now }
{
    match answer {
        Answer::Text(text) => text.as_bytes(),
        Answer::Owned(text) => text.as_str().as_bytes(),
        _ => &[],
    }
}

/// Tells an answer, and writes its text into a buffer if it has room for it. Returns whether it has.
fn tell(answer: &Answer, out: &mut [u8], told: &mut ViewAnswer) -> bool
    ensures { TellsAnswer answer.now (record { bytes = out.old; answer = told.old })
        (record { bytes = out.new; answer = told.new }) result }
{
    *told = ViewAnswer {
        number: number_of(answer),
        integer: integer_of(answer),
        len: 0,
        form: form_of(answer),
    };
    match write_bytes(text_of(answer), out, &mut told.len) {
        Ok(()) => true,
        Err(_) => false,
    }
}

/// The accessor with a number.
fn accessor_of(number: u32) -> Result<Accessor, Refusal>
    ensures ok { IfOk result (λ accessor. accessor_number accessor ≡ number) }
    ensures err { IfErr result (IsNoAccessor number) }
{
    match Accessor::of_number(number) {
        Some(accessor) => Ok(accessor),
        None => Err(Refusal::Accessor),
    }
}

/// # Typed views
impl Session {
    /// Tells what an accessor answers of the node that a path leads to. If the answer is a text, it is written into a
    /// buffer, and its length is told also if the buffer is too short.
    ///
    /// The accessors and their numbers are those of `typst_accessors`. Only the value of a string takes memory.
    pub fn view(
        &self,
        alloc: Global,
        path: &[usize],
        asked: Asked,
        out: &mut [u8],
        told: &mut ViewAnswer,
    ) -> Result<(), Refusal>
        ensures { ReadsView path.now asked self.now (record { bytes = out.old; answer = told.old })
            (record { bytes = out.new; answer = told.new }) result }
    {
        let accessor = accessor_of(asked.accessor)?;
        let node = match self.node_at(path) {
            Ok(node) => node,
            Err(refusal) => return Err(refusal),
        };
        match accessor.answer(alloc, node, asked.index) {
            Ok(answer) => {
                if tell(&answer, out, told) {
                    Ok(())
                } else {
                    Err(Refusal::Buffer)
                }
            }
            Err(_) => Err(Refusal::Memory),
        }
    }
}
