// How a program fills its room from standard input, or from any other reader.
#![tactic(auto)]

ghost use Rattle.std.specs.Prelude.{◌<◌, IfOk, length, take};
ghost use Rattle.std.specs.Io.{ReadsAtMost};
ghost use Rattle.std.specs.Io.KnownBytes.{Consumes, IsAtEnd};

use std::io;
use std::io::Read;

// Reads until the room is full or the input ends, and returns how many bytes it put at the room's start. A read that fails
// ends it, also one that a signal interrupts.
pub fn read_full<R: Read>(reader: &mut R, room: &mut [u8]) -> io::Result<usize>
    ensures within { ReadsAtMost result room.new }
    ensures bytes { IfOk result (λ n. Consumes (R.remaining reader.old) (R.remaining reader.new) (take n room.new)) }
    ensures end { IfOk result (λ n. n < length room.new → IsAtEnd (R.remaining reader.new)) }
{
    let mut count = 0;
    // No plainer form: `count` is what the reads gave, and each read begins behind it.
    while count < room.len() {
        let more = reader.read(&mut room[count..])?;
        if more == 0 {
            return Ok(count);
        }
        count += more;
    }
    Ok(count)
}

#[cfg(test)]
mod tests {
    use super::read_full;
    use std::io;
    use std::io::{ErrorKind, Read};

    // Gives a byte a read, counted down to 1, and then fails or ends.
    #[derive(Drop)]
    struct Countdown {
        left: u8,
        fails: bool,
    }

    impl Read for Countdown {
        fn read(&mut self, buf: &mut [u8]) -> io::Result<usize> {
            if buf.is_empty() {
                return Ok(0);
            }
            if self.left > 0 {
                buf[0] = self.left;
                self.left -= 1;
                return Ok(1);
            }
            if self.fails {
                return Err(io::Error::from(ErrorKind::BrokenPipe));
            }
            Ok(0)
        }
    }

    #[test]
    fn reads_to_the_end(rt: HostRuntime) -> io::Result<()> {
        let mut reader = Countdown {
            left: 3,
            fails: false,
        };
        let mut room = [0u8; 5];
        assert_eq!(rt; read_full(&mut reader, &mut room)?, 3);
        assert_eq!(rt; room, [3, 2, 1, 0, 0]);
        Ok(())
    }

    #[test]
    fn reads_no_more_than_the_room(rt: HostRuntime) -> io::Result<()> {
        let mut reader = Countdown {
            left: 3,
            fails: true,
        };
        let mut room = [0u8; 2];
        assert_eq!(rt; read_full(&mut reader, &mut room)?, 2);
        assert_eq!(rt; room, [3, 2]);
        assert_eq!(rt; reader.left, 1);
        Ok(())
    }

    #[test]
    fn hands_on_a_failure(rt: HostRuntime) {
        let mut reader = Countdown {
            left: 3,
            fails: true,
        };
        let kind = match read_full(&mut reader, &mut [0u8; 5]) {
            Ok(_) => ErrorKind::Other,
            Err(error) => error.kind(),
        };
        assert_eq!(rt; kind, ErrorKind::BrokenPipe);
    }
}
