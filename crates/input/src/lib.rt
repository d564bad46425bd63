// Reads an input into a buffer of fixed size.
#![tactic(auto)]

ghost use Rattle.std.specs.Prelude.{◌≤◌, length, take};
ghost use Rattle.std.specs.Io.KnownBytes.{Consumes};

use std::io::Read;

// The most bytes of an input that a program reads.
pub const INPUT_BYTES: usize = 65536;

// Reads until the buffer is full, the input ends or a read fails, and returns how many bytes it put at the buffer's start.
// No clause says which of the three it was: the result does not tell a failed read from an end, and `Read` has no term for a reader that fails.
// (Not std's `read_exact`: its contract says little of the bytes before an end or a failure.)
pub fn read_full<R: Read>(input: &mut R, buffer: &mut [u8]) -> usize
    ensures bound { result ≤ length buffer.new }
    ensures bytes { Consumes (R.remaining input.old) (R.remaining input.new) (take result buffer.new) }
{
    let mut done = 0;
    while done < buffer.len() {
        match input.read(&mut buffer[done..]) {
            Ok(0) | Err(_) => break,
            Ok(n) => done += n,
        }
    }
    done
}

#[cfg(test)]
mod tests {
    use super::*;
    use std::io;

    // Gives one byte at each read, counting down, and then fails.
    #[derive(Drop)]
    struct Countdown {
        left: u8,
    }

    impl Read for Countdown {
        fn read(&mut self, buf: &mut [u8]) -> io::Result<usize> {
            if self.left == 0 || buf.len() == 0 {
                return Err(io::Error::from(io::ErrorKind::Other));
            }
            self.left -= 1;
            buf[0] = self.left;
            Ok(1)
        }
    }

    #[test]
    fn goes_on_until_the_buffer_is_full(rt: HostRuntime) {
        let mut buffer = [0u8; 4];
        assert_eq!(rt; read_full(&mut Countdown { left: 9 }, &mut buffer), 4);
        assert_eq!(rt; buffer, [8, 7, 6, 5]);
    }

    #[test]
    fn counts_what_came_before_a_failure(rt: HostRuntime) {
        let mut buffer = [1u8; 4];
        assert_eq!(rt; read_full(&mut Countdown { left: 2 }, &mut buffer), 2);
        assert_eq!(rt; buffer, [1, 0, 1, 1]);
    }

    #[test]
    fn counts_what_came_before_the_end(rt: HostRuntime) {
        let mut buffer = [1u8; 4];
        let mut bytes = b"ab".as_slice();
        assert_eq!(rt; read_full(&mut bytes, &mut buffer), 2);
        assert_eq!(rt; buffer, [b'a', b'b', 1, 1]);
    }
}
