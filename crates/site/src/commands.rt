// A file of commands is read, of any kind.
ghost use Rattle.std.specs.Prelude.{◌≡◌, ◌++◌, List, [], Some, MatchResult, Decides};
ghost use Rattle.site.specs.Files.{Format, Spelled, unreadable, Taken, TakenFirst, Filled, ReadInto};

use crate::limits::FILE_BYTES;
use crate::refusal::{Fault, Refusal};

// What is read from the commands of a file, for a T.
pub trait FromCommands<T>: Drop {
    type Command: Copy;

    // The kind of file, by the T that it is for.
    ghost format: { T → Format Self.Command };

    ghost spelled: { (t : T) → Spelled (format t) };

    // What a value holds after these commands, of which the last comes first.
    ghost holds: { Self → List Self.Command → Type 0 };

    // Before the first command.
    fn new() -> Self
        ensures { holds result [] };

    // The first command of the bytes, and what follows it.
    fn next(bytes: &[u8]) -> Result<(Self::Command, &[u8]), Fault>
        ensures { (t : T) → MatchResult result (λ p. bytes.now ≡ (format t).bytes_of p.0 ++ p.1.now) (λ fault. unreadable (format t).operands bytes.now ≡ Some fault) };

    // Takes the next command, unless it has a fault.
    fn take(&mut self, of: &T, command: Self::Command) -> Result<(), Fault>
        ensures { (before : List Self.Command) → holds self.old before → Taken (format of.now) holds before command self.new result };

    // Whether a command ends the file.
    fn is_end(command: Self::Command) -> bool
        ensures { (t : T) → Decides result (command ≡ (format t).end) };

    // Whether the commands so far lack nothing.
    fn is_whole(&self, of: &T) -> bool
        ensures { (before : List Self.Command) → holds self.now before → Decides result ((format of.now).whole before) };
}

// Takes the first command of the bytes, and gives it with what follows it.
fn take_first<'a, T, R: FromCommands<T>>(
    read: &mut R,
    of: &T,
    bytes: &'a [u8],
) -> Result<(R::Command, &'a [u8]), Fault>
    ensures { (before : List R.Command) → R.holds read.old before → TakenFirst (R.format of.now) R.holds before bytes.now read.new result }
{
    let (command, rest) = R::next(bytes)?;
    read.take(of, command)?;
    Ok((command, rest))
}

// Takes the commands of a file up to its end, and gives the offset of the end's letter.
fn fill<T, R: FromCommands<T>>(read: &mut R, of: &T, bytes: &[u8]) -> Result<usize, Refusal>
    requires { R.holds read.old [] }
    ensures { Filled (R.format of.now) R.holds bytes.now read.new result }
{
    let mut rest = bytes;
    loop {
        let at = bytes.len() - rest.len();
        let (command, after) = take_first(read, of, rest).map_err(|fault| Refusal::File {
            fault,
            at,
        })?;
        if R::is_end(command) {
            return Ok(at);
        }
        rest = after;
    }
}

// What a file is read into for a T, or why the file is refused.
pub fn read_file<T, R: FromCommands<T>>(of: &T, bytes: &[u8]) -> Result<R, Refusal>
    ensures { ReadInto (R.format of.now) R.holds bytes.now result }
{
    if bytes.len() > FILE_BYTES {
        return Err(Refusal::File {
            fault: Fault::TooLong,
            at: 0,
        });
    }
    let mut read = R::new();
    let end = fill(&mut read, of, bytes)?;
    if !read.is_whole(of) {
        return Err(Refusal::File {
            fault: Fault::Unpriced,
            at: end,
        });
    }
    if end + 1 < bytes.len() {
        return Err(Refusal::File {
            fault: Fault::Trailing,
            at: end + 1,
        });
    }
    Ok(read)
}
