//! The words with which the lines of events begin.

ghost use Rattle.std.specs.Prelude.{◌≡◌, IfNone, IfSome};
ghost use Rattle.pipe_model.specs.declared.tree.StageKind.{StageKind as PlainStage};
ghost use Rattle.record_parser.specs.LogForms.{stage_text, word_text};
ghost use Rattle.record_parser.specs.declared.log_word.LogWord.{LogWord as PlainWord};

use crate::names::kind_field;
use pipe_model::access::AccessKind;
use pipe_model::tree::StageKind;

/// The word with which the line of an event begins.
#[derive(Clone, Copy)]
pub enum LogWord {
    Begin,
    Enter,
    End,
    Closed,
    Trap,
    Access(AccessKind),
    Stage(StageKind),
}

// Returns the kind of stage with this word.
fn stage_field(bytes: &[u8]) -> Option<StageKind>
    ensures some { IfSome result (λ kind. bytes.now ≡ stage_text kind) }
    ensures none { IfNone result ((kind : PlainStage) → bytes.now ≡ stage_text kind → ⊥) }
{
    if bytes == b"wait".as_slice() {
        return Some(StageKind::Wait);
    }
    if bytes == b"continue".as_slice() {
        return Some(StageKind::Continue);
    }
    None
}

/// Returns the word that these bytes are. Returns `None` if they are none.
pub fn log_word(bytes: &[u8]) -> Option<LogWord>
    ensures some { IfSome result (λ word. bytes.now ≡ word_text word) }
    ensures none { IfNone result ((word : PlainWord) → bytes.now ≡ word_text word → ⊥) }
{
    if let Some(kind) = kind_field(bytes) {
        return Some(LogWord::Access(kind));
    }
    if let Some(kind) = stage_field(bytes) {
        return Some(LogWord::Stage(kind));
    }
    if bytes == b"begin".as_slice() {
        return Some(LogWord::Begin);
    }
    if bytes == b"enter".as_slice() {
        return Some(LogWord::Enter);
    }
    if bytes == b"end".as_slice() {
        return Some(LogWord::End);
    }
    if bytes == b"closed".as_slice() {
        return Some(LogWord::Closed);
    }
    if bytes == b"trap".as_slice() {
        return Some(LogWord::Trap);
    }
    None
}
