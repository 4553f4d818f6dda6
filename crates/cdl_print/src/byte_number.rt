//! The numbers of bytes, each written by one copy of four bytes.

ghost use Rattle.std.specs.Prelude.{◌≡◌, ◌+◌, ◌-ℤ◌, ◌<◌, ◌≤◌, ◌++◌, length, pos, take};
ghost use Rattle.std.specs.Fmt.{signed_decimal};
ghost use Rattle.cdl_print.specs.code.NumberTexts.{IsByteNumber};

use crate::put::put_bytes;

/// The numbers from -128 to 255 in decimal, each with spaces after it up to four bytes.
static TEXTS: [u8; 1536] = *b"\
    -128-127-126-125-124-123-122-121-120-119-118-117-116-115-114-113\
    -112-111-110-109-108-107-106-105-104-103-102-101-100-99 -98 -97 \
    -96 -95 -94 -93 -92 -91 -90 -89 -88 -87 -86 -85 -84 -83 -82 -81 \
    -80 -79 -78 -77 -76 -75 -74 -73 -72 -71 -70 -69 -68 -67 -66 -65 \
    -64 -63 -62 -61 -60 -59 -58 -57 -56 -55 -54 -53 -52 -51 -50 -49 \
    -48 -47 -46 -45 -44 -43 -42 -41 -40 -39 -38 -37 -36 -35 -34 -33 \
    -32 -31 -30 -29 -28 -27 -26 -25 -24 -23 -22 -21 -20 -19 -18 -17 \
    -16 -15 -14 -13 -12 -11 -10 -9  -8  -7  -6  -5  -4  -3  -2  -1  \
    0   1   2   3   4   5   6   7   8   9   10  11  12  13  14  15  \
    16  17  18  19  20  21  22  23  24  25  26  27  28  29  30  31  \
    32  33  34  35  36  37  38  39  40  41  42  43  44  45  46  47  \
    48  49  50  51  52  53  54  55  56  57  58  59  60  61  62  63  \
    64  65  66  67  68  69  70  71  72  73  74  75  76  77  78  79  \
    80  81  82  83  84  85  86  87  88  89  90  91  92  93  94  95  \
    96  97  98  99  100 101 102 103 104 105 106 107 108 109 110 111 \
    112 113 114 115 116 117 118 119 120 121 122 123 124 125 126 127 \
    128 129 130 131 132 133 134 135 136 137 138 139 140 141 142 143 \
    144 145 146 147 148 149 150 151 152 153 154 155 156 157 158 159 \
    160 161 162 163 164 165 166 167 168 169 170 171 172 173 174 175 \
    176 177 178 179 180 181 182 183 184 185 186 187 188 189 190 191 \
    192 193 194 195 196 197 198 199 200 201 202 203 204 205 206 207 \
    208 209 210 211 212 213 214 215 216 217 218 219 220 221 222 223 \
    224 225 226 227 228 229 230 231 232 233 234 235 236 237 238 239 \
    240 241 242 243 244 245 246 247 248 249 250 251 252 253 254 255 ";

/// How many bytes each of these numbers has without the spaces, as a digit.
static LENGTHS: [u8; 384] = *b"\
    4444444444444444444444444444433333333333333333333333333333333333\
    3333333333333333333333333333333333333333333333333333333222222222\
    1111111111222222222222222222222222222222222222222222222222222222\
    2222222222222222222222222222222222223333333333333333333333333333\
    3333333333333333333333333333333333333333333333333333333333333333\
    3333333333333333333333333333333333333333333333333333333333333333";

/// Returns how many bytes `n` has in decimal, with a minus if it is negative: at most 4. No branch depends on the number. Needs a
/// number from -128 to 255.
#[inline(always)]
pub fn byte_number_len(n: i128) -> usize
    requires { IsByteNumber n }
    ensures len { result ≡ length (signed_decimal n) }
    ensures short { result ≤ 4 }
{
    (LENGTHS[index_of(n)] - b'0') as usize
}

/// Writes `n` in decimal, with a minus if it is negative, at the offset `at` of `text`, as [`put_decimal`](crate::decimal::put_decimal) does.
/// No branch depends on the number. Needs a number from -128 to 255, and room for four bytes. The bytes after the number may change.
#[inline(always)]
pub fn put_byte_number(text: &mut [u8], at: usize, n: i128)
    requires byte { IsByteNumber n }
    requires fits { at + 4 ≤ length text.old }
    ensures { take (at + length (signed_decimal n)) text.new ≡ take at text.old ++ signed_decimal n }
{
    let from = 4 * index_of(n);
    put_bytes(text, at, &TEXTS[from..from + 4]);
}

/// Returns the index of `n` in [`TEXTS`], in steps of four bytes, and in [`LENGTHS`]: 0 for -128. Needs a number from -128 to 255.
#[inline(always)]
fn index_of(n: i128) -> usize
    requires { IsByteNumber n }
    ensures index { n ≡ pos result -ℤ pos 128 }
    ensures within { result < 384 }
{
    (n + 128) as usize
}
