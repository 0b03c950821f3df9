// The fixed texts of a picture. Pieces fill their holes, the bytes `@`.

/// The size, the title, a description for screen readers, the heads of the arrows, the dot where one starts, white paper, the headline, and where the columns
/// begin.
pub const HEAD: &[u8] =
    b"<svg xmlns='http://www.w3.org/2000/svg' version='1.1' width='@' height='@' viewBox='0 0 @ @' font-family='DejaVu Sans, Verdana, Helvetica, Arial, sans-serif' font-size='12' fill='#111'>\n\
<title>@: where each read takes its value from</title>\n\
<desc>A column for each stage, and a row for each read. In a row an arrow goes to the stage of the read from each stage that can be asked for its value, and says what that stage has.</desc>\n\
<defs>\n\
<marker id='dot' viewBox='0 0 6 6' refX='3' refY='3' markerWidth='4' markerHeight='4'><circle cx='3' cy='3' r='3' fill='#111'/></marker>\n\
<marker id='bypass' viewBox='0 0 8 8' refX='7' refY='4' markerWidth='6' markerHeight='6' orient='auto'><path d='M0,0L8,4L0,8z' fill='#1a5fb4'/></marker>\n\
<marker id='maybe' viewBox='0 0 8 8' refX='7' refY='4' markerWidth='6' markerHeight='6' orient='auto'><path d='M0,0L8,4L0,8z' fill='#8a5200'/></marker>\n\
<marker id='wait' viewBox='0 0 8 8' refX='7' refY='4' markerWidth='6' markerHeight='6' orient='auto'><path d='M0,0L8,4L0,8z' fill='#a3121f'/></marker>\n\
<marker id='guess' viewBox='0 0 8 8' refX='7' refY='4' markerWidth='6' markerHeight='6' orient='auto'><path d='M0,0L8,4L0,8z' fill='#6a2f9c'/></marker>\n\
</defs>\n\
<rect width='100%' height='100%' fill='#fff'/>\n\
<text x='16' y='26' font-size='15' font-weight='bold'>@: where each read takes its value from</text>\n\
<g transform='translate(@,0)'>\n";

/// A column, up to its stage: its middle, and the end of the line at its left side.
pub const COLUMN: &[u8] =
    b"<g transform='translate(@,0)'><path d='M-55,76V@' stroke='#b4bcc6' stroke-dasharray='2 4'/><rect x='-49' y='44' width='98' height='26' rx='4' fill='#eef3f9' stroke='#5a6b7d'/><text y='62' font-weight='bold' text-anchor='middle'>";

/// The end of a column, after its stage.
pub const COLUMN_END: &[u8] = b"</text></g>\n";

/// A row begins: its line, across all columns.
pub const ROW: &[u8] =
    b"<g transform='translate(0,@)'><path d='M0,0H@' stroke='#bbb'/><text x='-14' y='-3' font-family='DejaVu Sans Mono, Consolas, monospace' font-weight='bold' text-anchor='end'>";

/// The label of a row, the line of the job, and a note.
pub const LABEL: &[u8] =
    b"@ = @@</text><text x='-14' y='13' font-size='11' text-anchor='end'>line @@</text>\n";

/// The box in the stage of the read.
pub const READ_BOX: &[u8] =
    b"<g transform='translate(@,0)'><rect x='-48' y='-11' width='96' height='22' rx='4' fill='#fff' stroke='#111'/><text y='4' text-anchor='middle'>reads</text></g>\n";

/// An arrow begins, up to its stage.
pub const ARROW_START: &[u8] = b"<g><title>";

/// An arrow, after its stage: what a pointer on it shows, the line up, to the left, and down, its look, and its word.
pub const ARROW: &[u8] =
    b": @</title><path d='M@,0V-@H@V-12' fill='none' stroke-width='1.5' marker-start='url(#dot)' @/><text x='@' y='-@' dx='-6' dy='-4' font-size='11' text-anchor='end'>@</text></g>\n";

pub const ROW_END: &[u8] = b"</g>\n";

/// The legend, below the rows, and the end of the picture.
pub const LEGEND: &[u8] = b"</g>\n\
<g transform='translate(16,@)' stroke-width='1.5'>\n\
<path d='M0,20H40' stroke='#1a5fb4' marker-start='url(#dot)' marker-end='url(#bypass)'/>\n\
<path d='M0,40H40' stroke='#8a5200' stroke-dasharray='7 3' marker-start='url(#dot)' marker-end='url(#maybe)'/>\n\
<path d='M0,60H40' stroke='#a3121f' stroke-dasharray='2 3' marker-start='url(#dot)' marker-end='url(#wait)'/>\n\
<path d='M0,80H40' stroke='#6a2f9c' stroke-dasharray='8 3 2 3' marker-start='url(#dot)' marker-end='url(#guess)'/>\n\
<text x='52' y='24'>bypass: the stage has the value, once it isn't stalled</text>\n\
<text x='52' y='44'>maybe: it has the value if a set took place; else the read waits, or goes on with its guess</text>\n\
<text x='52' y='64'>wait: the read waits: nothing is set yet, or it isn't known whether the stage writes what is read</text>\n\
<text x='52' y='84'>guess: the same, but the read goes on with its guess</text>\n\
</g>\n\
</svg>\n";
