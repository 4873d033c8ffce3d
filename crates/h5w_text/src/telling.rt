//! The last line of a run, and its status.
ghost use Rattle.std.specs.Prelude.{◌≡◌, true};
ghost use Rattle.h5w_text.specs.Errors.{error_text, is_fixed};
ghost use Rattle.h5w_text.specs.Says.{Said, SaidUnlessMemory};
ghost use Rattle.h5w_text.specs.Statuses.{status_of};

use crate::error::{ErrorLine, fixed, write_error};
use crate::status::Status;
use crate::streams::Sink;
use std::alloc::Global;

/// Writes these bytes as the last ones.
pub fn say<K: Sink>(bytes: &[u8], status: Status, sink: &mut K) -> Status
    ensures { Said bytes.now status result (K.view sink.old) (K.view sink.new) }
{
    match sink.write(bytes) {
        Ok(()) => status,
        Err(_) => Status::Sink,
    }
}

/// Writes the line of an error that tells no more than its kind as the last one. That takes no memory.
pub fn say_line<K: Sink>(error: &ErrorLine, sink: &mut K) -> Status
    requires { is_fixed error.now ≡ true }
    ensures { Said (error_text error.now) (status_of error.now) result (K.view sink.old) (K.view sink.new) }
{
    match fixed(error) {
        Some(line) => say(line, error.status(), sink),
        None => unreachable!(),
    }
}

/// Writes the line of an error as the last one.
pub fn tell<K: Sink>(alloc: Global, error: &ErrorLine, sink: &mut K) -> Status
    ensures { SaidUnlessMemory (error_text error.now) (status_of error.now) result (K.view sink.old) (K.view sink.new) }
{
    let mut text = Vec::new(alloc);
    match write_error(&mut text, error) {
        Ok(()) => say(&text, error.status(), sink),
        Err(_) => say_line(&ErrorLine::Memory, sink),
    }
}
