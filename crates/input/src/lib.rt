// Reading an input to its end. Of the bytes that a read puts into a buffer no contract can say anything; what is proved
// is that they lie inside it and that the reading ends. A read that fails is told from the end of the input here.
#![tactic(auto)]

ghost use Rattle.std.specs.Prelude.{length};
ghost use Rattle.input.specs.Input.{InputFits};

// The number of the thread's last call that failed, 0 where none has.
fn last_failure() -> i32 {
    std_io::io::last_error().raw_os_error().unwrap_or(0)
}

// Makes the thread's last failure one that no read has: the logarithm of a negative number is outside its domain. A read that
// fails sets another, and one that doesn't leaves it.
fn fail_unlike_a_read(from: i32) -> i32 {
    let number = f64::from(from);
    let negative = -1.0 - number * number;
    let _none = negative.ln();
    last_failure()
}

// Reads until the input ends or the buffer is full.
pub fn read_all(from: i32, buf: &mut [u8]) -> Option<usize>
    ensures { InputFits (length buf.old) result }
{
    let before = fail_unlike_a_read(from);
    let done = io::read_full(from, buf);
    if done < buf.len() && last_failure() != before {
        return None;
    }
    Some(done)
}
