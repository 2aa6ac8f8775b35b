// The word that opens a listing, `PLAN` or `HELD`, and the refusal's listing.
ghost use Rattle.std.specs.Prelude.{◌≡◌, ◌+◌, ◌≤◌, length};
ghost use Rattle.line.specs.Layout.{line_bytes};
ghost use Rattle.common.specs.Buffers.{put_at};
ghost use Rattle.plan_lines.specs.Sizes.{word_bytes};
ghost use Rattle.plan_lines.specs.Text.{refusal_text};
ghost use Rattle.listing.specs.Opening.{Written};

use line::layout::LINE;
use plan_lines::sizes::WORD;

// Writes a word, its byte 10 with it, at the front of out.
pub fn put_word(out: &mut [u8], word: &[u8; WORD])
    requires { word_bytes ≤ length out.old }
    ensures { out.new ≡ put_at 0 word.now out.old }
{
    out[..WORD].copy_from_slice(word);
}

// Writes the listing of a refusal other than 12, and answers its length.
pub fn put_refusal(out: &mut [u8], number: u32, line: u32) -> usize
    requires { word_bytes + line_bytes ≤ length out.old }
    ensures { Written (refusal_text number line) out.old out.new result }
{
    put_word(out, b"HELD\n");
    line::put_line(out, WORD, number, line, 0, 0);
    WORD + LINE
}
