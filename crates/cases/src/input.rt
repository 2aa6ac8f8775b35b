// Cases from standard input.
ghost use Rattle.std.specs.Prelude.{◌≤◌, IfErr, IfSome, length};

use crate::{Case, payloads};

// Room for the longest payload: a sheet of the first length beyond that of a sheet, and what stands before it.
const ROOM: usize = 66000;

// No stream has as many cases; the bound lets the loop over them end.
const CASES: u32 = 100000;

// Takes the next case, its payload into the room; nothing at the end of the stream, which is operation E, and also
// where the stream ends without one or the payload is longer than the room.
fn next_case(room: &mut [u8]) -> Option<Case<'_>>
    ensures { IfSome result (λ case. length case.payload.now ≤ length room.old) }
{
    let mut header = [0u8; 16];
    let got = io::read_full(0, &mut header);
    if got < header.len() || header[0] == b'E' {
        return None;
    }
    let length = payloads::number(&header[7..15]) as usize;
    let payload = room.get_mut(..length)?;
    io::read_full(0, payload);
    Some(Case {
        operation: header[0],
        number: payloads::number(&header[1..6]),
        payload,
    })
}

// Has each case of the stream answered, up to the first whose answer fails: the result is then that error, and the
// cases after it are still to be read.
pub fn answer_all<F: Fn(Case<'_>) -> std::io::Result<()>>(answer: F) -> std::io::Result<()>
    requires { F.IsAlwaysCallable answer }
    ensures { IfErr result (λ error. (case : Case) × F.post answer case (Err error)) }
{
    let mut room = [0; ROOM];
    for _ in 0..CASES {
        let Some(case) = next_case(&mut room) else {
            break;
        };
        answer(case)?;
    }
    Ok(())
}

// Has each case of the stream answered. A write that fails ends its case and no more: the programs that answer a second
// implementation's cases go on with the next one and have no status of their own, as `planner` has none. The gate sees
// by its comparison what was not written.
pub fn answer_each<F: Fn(Case<'_>) -> std::io::Result<()>>(answer: F)
    requires { F.IsAlwaysCallable answer }
{
    let mut room = [0; ROOM];
    for _ in 0..CASES {
        let Some(case) = next_case(&mut room) else {
            break;
        };
        let _ = answer(case);
    }
}
