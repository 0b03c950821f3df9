// The fixed texts of a picture. Pieces fill their holes, the bytes `@`.

/// The beginning: the size, the title, a description for screen readers, the headline, the words over the numbers of the columns and the rows, two kinds of
/// hatching, in diagonal and in level lines, and a light colour for each of up to twelve stages, `s0` to `s11`. All text is centred.
pub const TITLE: &[u8] =
    b"<svg xmlns='http://www.w3.org/2000/svg' xmlns:xlink='http://www.w3.org/1999/xlink' version='1.1' width='@' height='@' viewBox='0 0 @ @' font-family='DejaVu Sans, Verdana, Helvetica, Arial, sans-serif' font-size='12' text-anchor='middle' fill='#111'>\n\
<title>@: @ stages, @ cycle@</title>\n\
<desc>A pipeline diagram: a row for each fetch of an instruction, a column for each cycle. A cell names the stage that contains the instruction.</desc>\n\
<rect width='100%' height='100%' fill='#fff'/>\n\
<text x='16' y='26' font-size='15' font-weight='bold' text-anchor='start'>@: @ stages, @ cycle@</text>\n\
<text x='100' y='48' text-anchor='start'>cycle</text>\n\
<text x='90' y='66' text-anchor='end'>instruction</text>\n\
<defs>\n\
<pattern id='diagonal' width='5' height='5' patternUnits='userSpaceOnUse' patternTransform='rotate(45)'><rect width='2' height='5' fill='#b35c00'/></pattern>\n\
<pattern id='level' width='5' height='5' patternUnits='userSpaceOnUse'><rect width='5' height='2' fill='#31475e'/></pattern>\n\
<g id='s0' fill='#cfe3f7'><use xlink:href='#box'/></g>\n\
<g id='s1' fill='#d7efd3'><use xlink:href='#box'/></g>\n\
<g id='s2' fill='#fdebc1'><use xlink:href='#box'/></g>\n\
<g id='s3' fill='#e6dcf3'><use xlink:href='#box'/></g>\n\
<g id='s4' fill='#f9d9d0'><use xlink:href='#box'/></g>\n\
<g id='s5' fill='#d5eff0'><use xlink:href='#box'/></g>\n\
<g id='s6' fill='#eee6d4'><use xlink:href='#box'/></g>\n\
<g id='s7' fill='#e3e7ee'><use xlink:href='#box'/></g>\n\
<g id='s8' fill='#dff0c8'><use xlink:href='#box'/></g>\n\
<g id='s9' fill='#f6dcec'><use xlink:href='#box'/></g>\n\
<g id='s10' fill='#dfe0fb'><use xlink:href='#box'/></g>\n\
<g id='s11' fill='#e8e8e8'><use xlink:href='#box'/></g>\n";

/// The shapes that the cells use: the box of a cell, and a white field in it on which a name and a mark are legible over hatching; the cross of a squashed
/// cell; what a cell says of the instruction in it, which moves on (`m0`), waits for a value (`m1`, diagonal lines and `*`), waits for the stage ahead (`m2`,
/// a broken edge and `-`), is held from outside (`m3`, level lines and `!`), or is squashed (`m4`, crossed out); and the grid: the line between two columns
/// (`c0`), the grey column of a cycle in which a guess was wrong, with a wedge on it (`c1`), and the line between two rows.
pub const SHAPES: &[u8] = b"<rect id='box' x='-@' y='-16' width='@' height='22' rx='3'/>\n\
<rect id='inner' x='-@' y='-12' width='@' height='14' rx='2' fill='#fff'/>\n\
<path id='cross' d='M-@,-16L@,6M-@,6L@,-16' fill='none'/>\n\
<rect id='middle' x='-@' y='-11' width='@' height='12' rx='2' fill='#fff'/>\n\
<g id='m0' stroke='#46525e'><use xlink:href='#box' fill='none'/></g>\n\
<g id='m1'><use xlink:href='#box' fill='url(#diagonal)' stroke='#8f4a00'/><use xlink:href='#inner'/><text x='@' y='2'>*</text></g>\n\
<g id='m2'><use xlink:href='#box' fill='#fff' fill-opacity='0.6' stroke='#111' stroke-dasharray='3 3'/><text x='@'>-</text></g>\n\
<g id='m3'><use xlink:href='#box' fill='url(#level)' stroke='#31475e'/><use xlink:href='#inner'/><text x='@'>!</text></g>\n\
<g id='m4' stroke='#a3121f' stroke-width='1.5'><use xlink:href='#box' fill='#fff'/><use xlink:href='#cross'/><use xlink:href='#middle' stroke='none'/></g>\n\
<path id='c0' d='M@.5,8v@' fill='none' stroke='#ddd'/>\n\
<g id='c1'><rect x='-@' y='8' width='@' height='@' fill='#e6e6e6'/><path d='M-5,3h10l-5,6z' fill='#a3121f'/></g>\n\
<path id='line' d='M0,8.5h@' fill='none' stroke='#ddd'/>\n\
</defs>\n";

/// The columns begin.
pub const COLUMNS: &[u8] = b"<g transform='translate(100,66)'>\n";

/// A column: where its middle is, whether a guess was wrong, and the number of the cycle.
pub const COLUMN: &[u8] =
    b"<g transform='translate(@)'><use xlink:href='#c@'/><text>@</text></g>\n";

/// A row begins, with the number of the instruction.
pub const ROW: &[u8] =
    b"<g transform='translate(100,@)'><use xlink:href='#line'/><text x='-10' text-anchor='end'>@</text>\n";

/// The columns end, or a row.
pub const ROW_END: &[u8] = b"</g>\n";

/// A cell, up to the name of its stage.
pub const CELL: &[u8] =
    b"<g transform='translate(@)'><title>instruction @, cycle @</title><use xlink:href='#s@'/><use xlink:href='#m@'/><text>";

pub const CELL_END: &[u8] = b"</text></g>\n";

/// The legend shows each look of a cell, and the wedge of a wrong guess, and what they mean. The account at the right of it says what each cycle was spent
/// for, up to the cycles per instruction.
pub const FOOT: &[u8] =
    b"<g transform='translate(@,@)'><use xlink:href='#s0'/><use xlink:href='#m0'/><use xlink:href='#m1' y='28'/><use xlink:href='#m2' y='56'/><use xlink:href='#m3' y='84'/><use xlink:href='#m4' y='112'/><path d='M-5,131h10l-5,6z' fill='#a3121f'/></g>\n\
<g transform='translate(@,@)' text-anchor='start'><text>moves on</text><text y='28'>waits for a value</text><text y='56'>waits for the stage ahead</text><text y='84'>held from outside</text><text y='112'>squashed</text><text y='140'>a guess was wrong</text></g>\n\
<g transform='translate(@,@)' text-anchor='start'><text font-weight='bold'>cycles</text><text y='24'>retired an instruction</text><text y='48'>lost to filling the pipeline</text><text y='72'>lost to data hazards</text><text y='96'>lost to wrong guesses</text><text y='120'>lost to stalls from outside</text><text y='144' font-weight='bold'>cycles per instruction</text></g>\n\
<g transform='translate(@,@)' text-anchor='end'><text font-weight='bold'>@</text><text y='24'>@</text><text y='48'>@</text><text y='72'>@</text><text y='96'>@</text><text y='120'>@</text><text y='144' font-weight='bold'>";

pub const END: &[u8] = b"</text></g>\n</svg>\n";
