//! `compact`: what is left out.

pub const ROWS: &str = "~# `compact` leaves out the vectors that aren't needed
~run compact n t r
~given n < SHIFT_REGISTER
~with t 0 vectors 6 kept 4
1
0
0
0
0
0
~left r
1
0
0
0
~with t 0 vectors 0 kept 0
~left r
~# the first vector is the last that is tried, so the last goes
~run compact n t r
~given n
INPUT(a)
OUTPUT(a)
~with t 0 vectors 3 kept 2
1
0
1
~left r
1
0
~run compact n t r
~given n
INPUT(a)
~with t 0 vectors 2 kept 0
1\r
0~left r
~# more than 4,096 vectors are too many, and no line after the first one too many is read
~run compact n t r
~given n < SHIFT_REGISTER
~times 4096 t
0
~with t 9 tests: too many vectors
0
~none r
~with t 9 tests: too many vectors
1
x
~with t 7 tests: line 4097
x
~# runs of vectors are left out at once
~run compact n t r --runs 2
~given n
INPUT(a)
INPUT(b)
INPUT(c)
OUTPUT(z)
q = DFF(n)
x = XOR(a, q)
n = AND(b, x)
z = AND(q, c)
~with t 0 vectors 8 kept 5
101
110
110
011
100
000
010
111
~left r
101
110
110
011
111
";
