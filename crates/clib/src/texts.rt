// The program's whole text for C.
ghost use Rattle.clib.specs.Texts.{Told};

// How many bytes the text has; 0, which no text has, for a buffer that is too short.
pub fn recharge_text(input: &[u8], output: &mut [u8]) -> usize
    ensures { Told input.now output.old output.new result }
{
    text::balance_text(input, output).unwrap_or(0)
}
