//! Parts of pictures. Most were drawn by hp_svg while the text of its pictures was still proved to
//! be that of a definition.
use crate::pictures::{Block, ROWS, Row, Words};

/// More names than letters. The first name is longer than the room that a legend has for it.
pub(crate) const NAMES: &[Words] = &[
    "a name longer than this",
    "b",
    "c",
    "d",
    "e",
    "f",
    "g",
    "h",
    "i",
    "j",
    "k",
    "l",
    "m",
    "n",
    "o",
    "p",
    "q",
    "r",
    "s",
    "t",
    "u",
    "v",
    "w",
    "x",
    "y",
    "z",
    "last",
];

/// A row with all characters.
pub(crate) const MARKED: &[Row] = &[(
    "all characters",
    "",
    None,
    &[(
        "0:N",
        ".:- K0123456789|abcdefghijklmnopqrstuvwxyz",
        &[],
        &[],
        "",
    )],
)];

/// A row whose cells are too narrow for most letters and orders, if a cell is 3 pixels wide.
pub(crate) const NARROW: &[Row] = &[(
    "narrow cells",
    "",
    None,
    &[(
        "0:N",
        "aabbb..|........",
        &[(5, 1, false), (8, 3, false)],
        &[],
        "MMMMUUU|MMMMMMMM",
    )],
)];

/// Memory blocks of which only two fit side by side, if a cell is 255 pixels wide.
pub(crate) const THREE: &[Block] = &[
    ("0:N", "aa", &[], &[], "MM"),
    ("1:M", ".a", &[(0, 0, false)], &[], "UU"),
    ("2:M", "..", &[(0, 1, false)], &[], "UM"),
];

/// Two rows with the blocks of `THREE`, the second with texts that need lines of their own and a
/// page that moved to the second strip; then a row of only text.
pub(crate) const FOLDED: &[Row] = &[
    ("", "", None, THREE),
    (
        "a text that is 30 letters long",
        "one of 26 letters, as here",
        Some((2, 5)),
        THREE,
    ),
    ("words", "", None, &[]),
];

/// Rows with kernel blocks of orders 0 to 2. The first row is only text.
pub(crate) const KERNEL: &[Row] = &[
    ("the 2 calls above 1021 times more", "", None, &[]),
    (
        "kernel",
        "",
        None,
        &[
            ("0:N", "KKK.", &[(3, 0, false)], &[(0, 0), (1, 1)], "UUUU"),
            ("1:N", "KKKK", &[], &[(0, 2)], "UUUU"),
            ("2:N", "....", &[(0, 2, false)], &[], "MMMM"),
        ],
    ),
];

/// The meaning of each character with its colours; the first name is squeezed.
pub(crate) const LEGEND: &str =
    "<rect x='8' y='8' width='12' height='12' fill='#7fbf7b'/><text x='26' y='18'>free</text>\n\
     <rect x='168' y='8' width='12' height='12' fill='url(#isolated)'/><text x='186' y='18'>free \
     and isolated</text>\n\
     <rect x='328' y='8' width='12' height='12' fill='#d4d4d8'/><text x='346' \
     y='18'>offline</text>\n\
     <rect x='488' y='8' width='12' height='12' fill='#f4f4f6'/><text x='506' \
     y='18'>absent</text>\n\
     <rect x='648' y='8' width='12' height='12' fill='#3d3d3d'/><text x='650' y='17' \
     font-size='8' fill='#ffffff'>K</text><text x='666' y='18'>the kernel</text>\n\
     <rect x='8' y='24' width='12' height='12' fill='#fff4cc'/><text x='10' y='33' font-size='8' \
     fill='#000000'>0</text><text x='26' y='34'>list of processor 0</text>\n\
     <rect x='168' y='24' width='12' height='12' fill='#ffe9a8'/><text x='170' y='33' \
     font-size='8' fill='#000000'>1</text><text x='186' y='34'>list of processor 1</text>\n\
     <rect x='328' y='24' width='12' height='12' fill='#f7dc8c'/><text x='330' y='33' \
     font-size='8' fill='#000000'>2</text><text x='346' y='34'>list of processor 2</text>\n\
     <rect x='488' y='24' width='12' height='12' fill='#efcf73'/><text x='490' y='33' \
     font-size='8' fill='#000000'>3</text><text x='506' y='34'>list of processor 3</text>\n\
     <rect x='648' y='24' width='12' height='12' fill='#e5c15c'/><text x='650' y='33' \
     font-size='8' fill='#000000'>4</text><text x='666' y='34'>list of processor 4</text>\n\
     <rect x='8' y='40' width='12' height='12' fill='#f3e0c4'/><text x='10' y='49' font-size='8' \
     fill='#000000'>5</text><text x='26' y='50'>list of processor 5</text>\n\
     <rect x='168' y='40' width='12' height='12' fill='#e6cda6'/><text x='170' y='49' \
     font-size='8' fill='#000000'>6</text><text x='186' y='50'>list of processor 6</text>\n\
     <rect x='328' y='40' width='12' height='12' fill='#d9bb8a'/><text x='330' y='49' \
     font-size='8' fill='#000000'>7</text><text x='346' y='50'>list of processor 7</text>\n\
     <rect x='488' y='40' width='12' height='12' fill='#cba970'/><text x='490' y='49' \
     font-size='8' fill='#000000'>8</text><text x='506' y='50'>list of processor 8</text>\n\
     <rect x='648' y='40' width='12' height='12' fill='#bd9758'/><text x='650' y='49' \
     font-size='8' fill='#000000'>9</text><text x='666' y='50'>list of processor 9</text>\n\
     <rect x='8' y='56' width='12' height='12' fill='#0072b2'/><text x='10' y='65' font-size='8' \
     fill='#ffffff'>a</text><text x='26' y='66' textLength='132' \
     lengthAdjust='spacingAndGlyphs'>page of a name longer than this, others</text>\n\
     <rect x='168' y='56' width='12' height='12' fill='#e69f00'/><text x='170' y='65' \
     font-size='8' fill='#000000'>b</text><text x='186' y='66'>page of b</text>\n\
     <rect x='328' y='56' width='12' height='12' fill='#009e73'/><text x='330' y='65' \
     font-size='8' fill='#ffffff'>c</text><text x='346' y='66'>page of c</text>\n\
     <rect x='488' y='56' width='12' height='12' fill='#cc79a7'/><text x='490' y='65' \
     font-size='8' fill='#000000'>d</text><text x='506' y='66'>page of d</text>\n\
     <rect x='648' y='56' width='12' height='12' fill='#56b4e9'/><text x='650' y='65' \
     font-size='8' fill='#000000'>e</text><text x='666' y='66'>page of e</text>\n\
     <rect x='8' y='72' width='12' height='12' fill='#d55e00'/><text x='10' y='81' font-size='8' \
     fill='#ffffff'>f</text><text x='26' y='82'>page of f</text>\n\
     <rect x='168' y='72' width='12' height='12' fill='#f0e442'/><text x='170' y='81' \
     font-size='8' fill='#000000'>g</text><text x='186' y='82'>page of g</text>\n\
     <rect x='328' y='72' width='12' height='12' fill='#332288'/><text x='330' y='81' \
     font-size='8' fill='#ffffff'>h</text><text x='346' y='82'>page of h</text>\n\
     <rect x='488' y='72' width='12' height='12' fill='#882255'/><text x='490' y='81' \
     font-size='8' fill='#ffffff'>i</text><text x='506' y='82'>page of i</text>\n\
     <rect x='648' y='72' width='12' height='12' fill='#117733'/><text x='650' y='81' \
     font-size='8' fill='#ffffff'>j</text><text x='666' y='82'>page of j</text>\n\
     <rect x='8' y='88' width='12' height='12' fill='#44aa99'/><text x='10' y='97' font-size='8' \
     fill='#000000'>k</text><text x='26' y='98'>page of k</text>\n\
     <rect x='168' y='88' width='12' height='12' fill='#999933'/><text x='170' y='97' \
     font-size='8' fill='#000000'>l</text><text x='186' y='98'>page of l</text>\n\
     <rect x='328' y='88' width='12' height='12' fill='#aa4499'/><text x='330' y='97' \
     font-size='8' fill='#ffffff'>m</text><text x='346' y='98'>page of m</text>\n\
     <rect x='488' y='88' width='12' height='12' fill='#88ccee'/><text x='490' y='97' \
     font-size='8' fill='#000000'>n</text><text x='506' y='98'>page of n</text>\n\
     <rect x='648' y='88' width='12' height='12' fill='#ddcc77'/><text x='650' y='97' \
     font-size='8' fill='#000000'>o</text><text x='666' y='98'>page of o</text>\n\
     <rect x='8' y='104' width='12' height='12' fill='#cc6677'/><text x='10' y='113' \
     font-size='8' fill='#ffffff'>p</text><text x='26' y='114'>page of p</text>\n\
     <rect x='168' y='104' width='12' height='12' fill='#4477aa'/><text x='170' y='113' \
     font-size='8' fill='#ffffff'>q</text><text x='186' y='114'>page of q</text>\n\
     <rect x='328' y='104' width='12' height='12' fill='#ee6677'/><text x='330' y='113' \
     font-size='8' fill='#000000'>r</text><text x='346' y='114'>page of r</text>\n\
     <rect x='488' y='104' width='12' height='12' fill='#228833'/><text x='490' y='113' \
     font-size='8' fill='#ffffff'>s</text><text x='506' y='114'>page of s</text>\n\
     <rect x='648' y='104' width='12' height='12' fill='#ccbb44'/><text x='650' y='113' \
     font-size='8' fill='#000000'>t</text><text x='666' y='114'>page of t</text>\n\
     <rect x='8' y='120' width='12' height='12' fill='#66ccee'/><text x='10' y='129' \
     font-size='8' fill='#000000'>u</text><text x='26' y='130'>page of u</text>\n\
     <rect x='168' y='120' width='12' height='12' fill='#aa3377'/><text x='170' y='129' \
     font-size='8' fill='#ffffff'>v</text><text x='186' y='130'>page of v</text>\n\
     <rect x='328' y='120' width='12' height='12' fill='#ee7733'/><text x='330' y='129' \
     font-size='8' fill='#000000'>w</text><text x='346' y='130'>page of w</text>\n\
     <rect x='488' y='120' width='12' height='12' fill='#ee3377'/><text x='490' y='129' \
     font-size='8' fill='#ffffff'>x</text><text x='506' y='130'>page of x</text>\n\
     <rect x='648' y='120' width='12' height='12' fill='#cc3311'/><text x='650' y='129' \
     font-size='8' fill='#ffffff'>y</text><text x='666' y='130'>page of y</text>\n\
     <rect x='8' y='136' width='12' height='12' fill='#009988'/><text x='10' y='145' \
     font-size='8' fill='#ffffff'>z</text><text x='26' y='146'>page of z</text>\n";

/// Letters and orders only in cells wide enough for them, and no lines between cells.
pub(crate) const NARROW_ROW: &str =
    "<text x='8' y='10'>narrow cells</text><text x='336' y='10'> 0:N</text><rect x='384' y='0' \
     width='6' height='12' fill='#0072b2'/><rect x='390' y='0' width='9' height='12' \
     fill='#e69f00'/><text x='392' y='9' font-size='8' fill='#000000'>b</text><rect x='399' \
     y='0' width='6' height='12' fill='#7fbf7b'/><rect x='408' y='0' width='24' height='12' \
     fill='#7fbf7b'/><rect x='384' y='12' width='12' height='2' fill='#a78bfa'/><rect x='396' \
     y='12' width='9' height='2' fill='#4c1d95'/><rect x='408' y='12' width='24' height='2' \
     fill='#a78bfa'/><rect x='400' y='1' width='4' height='10' rx='3' fill='none' \
     stroke='#14532d'/><rect x='409' y='1' width='22' height='10' rx='3' fill='none' \
     stroke='#14532d'/><text x='412' y='9' font-size='8' fill='#052e16' stroke='#ffffff' \
     stroke-width='2' paint-order='stroke'>3</text>\n";

/// The meaning of an owner's letter if the owner has no name.
pub(crate) const UNNAMED: &str = "<text x='346' y='18'>page of owner b</text>\n";

/// The second row of `FOLDED`, whose texts have lines of their own, and all that comes after it in
/// the picture.
pub(crate) const FOLDED_ROWS: &str =
    "<text x='8' y='44'>a text that is 30 letters long</text><text x='188' y='58'>one of 26 \
     letters, as here</text><text x='336' y='72'> 0:N</text><rect x='384' y='62' width='510' \
     height='12' fill='#0072b2'/><text x='386' y='71' font-size='8' fill='#ffffff'>a</text><rect \
     x='384' y='74' width='510' height='2' fill='#a78bfa'/><use href='#lines' x='384' \
     y='62'/><text x='894' y='72'> 1:M</text><rect x='942' y='62' width='255' height='12' \
     fill='#7fbf7b'/><rect x='1197' y='62' width='255' height='12' fill='#0072b2'/><text \
     x='1199' y='71' font-size='8' fill='#ffffff'>a</text><rect x='942' y='74' width='510' \
     height='2' fill='#4c1d95'/><use href='#lines' x='942' y='62'/><rect x='943' y='63' \
     width='253' height='10' rx='3' fill='none' stroke='#14532d'/><text x='336' y='86'> \
     2:M</text><rect x='384' y='76' width='510' height='12' fill='#7fbf7b'/><rect x='384' y='88' \
     width='255' height='2' fill='#4c1d95'/><rect x='639' y='88' width='255' height='2' \
     fill='#a78bfa'/><use href='#lines' x='384' y='76'/><rect x='385' y='77' width='508' \
     height='10' rx='3' fill='none' stroke='#14532d'/><text x='388' y='85' font-size='8' \
     fill='#052e16' stroke='#ffffff' stroke-width='2' paint-order='stroke'>1</text>\n\
     <text x='188' y='106'>words</text>\n\
     \n\
     </g>\n\
     <marker id='arrow' viewBox='0 0 6 6' refX='5' refY='3' markerWidth='5' markerHeight='5' \
     orient='auto'><path d='M0 0L6 3L0 6Z' fill='#b91c1c'/></marker><defs><g id='moves' \
     transform='translate(0 102)'><path d='M1069 6L766 82'/></g></defs><use href='#moves' \
     stroke='#ffffff' stroke-width='3' stroke-opacity='0.6'/><use href='#moves' stroke='#b91c1c' \
     stroke-width='1.2' marker-end='url(#arrow)'/>\n\
     <text x='384' y='60'>block 0</text><text x='336' y='72'> frame</text><text x='384' y='72' \
     font-size='8'>0</text><text x='639' y='72' font-size='8'>1</text>\n\
     <text x='942' y='60'>block 1</text><text x='894' y='72'> frame</text><text x='942' y='72' \
     font-size='8'>2</text><text x='1197' y='72' font-size='8'>3</text>\n\
     <text x='384' y='84'>block 2</text><text x='336' y='96'> frame</text><text x='384' y='96' \
     font-size='8'>4</text><text x='639' y='96' font-size='8'>5</text>\n\
     </svg>\n";

/// The size of a picture without rows.
pub(crate) const EMPTY: &str = "width='820' height='76' viewBox='0 0 820 76'";

/// A part of the picture of `KERNEL`: a line of text, and below it two memory blocks whose kernel
/// blocks have outlines and orders.
pub(crate) const KERNEL_ROWS: &str =
    "<text x='188' y='10'>the 2 calls above 1021 times more</text>\n\
     <text x='8' y='24'>kernel</text><text x='336' y='24'> 0:N</text><rect x='384' y='14' \
     width='24' height='12' fill='#3d3d3d'/><text x='386' y='23' font-size='8' \
     fill='#ffffff'>K</text><rect x='408' y='14' width='8' height='12' fill='#7fbf7b'/><rect \
     x='384' y='26' width='32' height='2' fill='#4c1d95'/><use href='#lines' x='384' \
     y='14'/><rect x='409' y='15' width='6' height='10' rx='3' fill='none' \
     stroke='#14532d'/><rect x='385' y='15' width='6' height='10' rx='3' fill='none' \
     stroke='#fbbf24'/><rect x='393' y='15' width='14' height='10' rx='3' fill='none' \
     stroke='#fbbf24'/><text x='401' y='23' font-size='8' fill='#fbbf24' stroke='#3d3d3d' \
     stroke-width='2' paint-order='stroke'>1</text><text x='416' y='24'> 1:N</text><rect x='464' \
     y='14' width='32' height='12' fill='#3d3d3d'/><text x='466' y='23' font-size='8' \
     fill='#ffffff'>K</text><rect x='464' y='26' width='32' height='2' fill='#4c1d95'/><use \
     href='#lines' x='464' y='14'/><rect x='465' y='15' width='30' height='10' rx='3' \
     fill='none' stroke='#fbbf24'/><text x='473' y='23' font-size='8' fill='#fbbf24' \
     stroke='#3d3d3d' stroke-width='2' paint-order='stroke'>2</text>";

/// The number of the first frame of each memory block of `KERNEL`. Its cells and pageblocks are too
/// narrow for more numbers.
pub(crate) const KERNEL_NUMBERS: &str =
    "<text x='384' y='60'>block 0</text><text x='384' y='72'>frame 0</text>\n\
     <text x='464' y='60'>block 1</text><text x='464' y='72'>frame 4</text>\n\
     <text x='544' y='60'>block 2</text><text x='544' y='72'>frame 8</text>\n";

/// The size of the picture of `ROWS` at 25 percent. The next two are at 33 and at 400 percent.
pub(crate) const QUARTER: &str = "width='205' height='38' viewBox='0 0 820 150'";

pub(crate) const THIRD: &str = "width='271' height='50' viewBox='0 0 820 150'";

pub(crate) const FOURFOLD: &str = "width='3280' height='600' viewBox='0 0 820 150'";
