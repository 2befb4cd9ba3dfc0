//! `sim`: reports, the lines of tests, and starts; and the report of `causes`.

pub const ROWS: &str = "~# The report of s27 under the vector 1100, which shows two faults.
~run sim n t r
~given n < S27
~given t
1100
~ends 0 total 32 detected 2
~left r
circuit inputs 4 outputs 1 flip-flops 3 gates 10 faults 52 classes 32
1 G0 s-a-0 undetected
2 G0 s-a-1 undetected
3 G1 s-a-0 undetected
4 G1 s-a-1 undetected
5 G2 s-a-0 undetected
6 G2 s-a-1 undetected
7 G3 s-a-0 undetected
8 G3 s-a-1 undetected
9 G5 s-a-0 undetected
10 G5 s-a-1 undetected
11 G6 s-a-0 undetected
12 G6 s-a-1 undetected
13 G7 s-a-0 undetected
14 G7 s-a-1 as 4
15 G14 s-a-0 as 2
16 G14 s-a-1 as 1
17 G17 s-a-0 detected 1 G17
18 G17 s-a-1 undetected
19 G8 s-a-0 as 11
20 G8 s-a-1 undetected
21 G15 s-a-0 as 10
22 G15 s-a-1 undetected
23 G16 s-a-0 as 10
24 G16 s-a-1 as 8
25 G9 s-a-0 undetected
26 G9 s-a-1 as 10
27 G10 s-a-0 undetected
28 G10 s-a-1 undetected
29 G11 s-a-0 as 10
30 G11 s-a-1 detected 1 G17
31 G12 s-a-0 as 4
32 G12 s-a-1 undetected
33 G13 s-a-0 as 6
34 G13 s-a-1 undetected
35 G6(1) s-a-0 undetected
36 G6(1) s-a-1 undetected
37 G17(1) s-a-0 as 18
38 G17(1) s-a-1 as 17
39 G8(1) s-a-0 as 11
40 G8(1) s-a-1 undetected
41 G15(1) s-a-0 undetected
42 G15(1) s-a-1 as 22
43 G15(2) s-a-0 undetected
44 G15(2) s-a-1 as 22
45 G16(2) s-a-0 undetected
46 G16(2) s-a-1 as 8
47 G10(1) s-a-0 undetected
48 G10(1) s-a-1 as 27
49 G10(2) s-a-0 undetected
50 G10(2) s-a-1 as 27
51 G13(2) s-a-0 undetected
52 G13(2) s-a-1 as 6
total 32 detected 2
~run sim n t r
~given n < SHIFT_REGISTER
~given t
1
0
0
~ends 0 total 6 detected 3
~left r < SHIFT_REGISTER_REPORT
~run sim n t r
~given n
INPUT(a)\r
OUTPUT(r)\r
q = DFF(a)\r
r = DFF(q)~given t
1\r
0\r
0~ends 0 total 6 detected 3
~left r < SHIFT_REGISTER_REPORT
~# a stem shows at the output of its own net first, and a pin after it at the gate only
~run sim n t r
~given n < AND_GATE
~given t
11
01
~ends 0 total 6 detected 5
~left r
circuit inputs 2 outputs 2 flip-flops 0 gates 1 faults 8 classes 6
1 a s-a-0 detected 1 a
2 a s-a-1 detected 2 a
3 b s-a-0 detected 1 z
4 b s-a-1 undetected
5 z s-a-0 as 3
6 z s-a-1 detected 2 z
7 z(1) s-a-0 as 3
8 z(1) s-a-1 detected 2 z
total 6 detected 5
~# a data pin shows where the flip-flop does, a vector later
~run sim n t r
~given n < BRANCHES
~given t
1
1
~ends 0 total 8 detected 4
~left r
circuit inputs 1 outputs 3 flip-flops 1 gates 1 faults 10 classes 8
1 a s-a-0 detected 1 a
2 a s-a-1 undetected
3 q s-a-0 detected 2 q
4 q s-a-1 undetected
5 z s-a-0 undetected
6 z s-a-1 detected 1 z
7 q(1) s-a-0 detected 2 q
8 q(1) s-a-1 undetected
9 z(1) s-a-0 as 6
10 z(1) s-a-1 as 5
total 8 detected 4
~# a feeds a flip-flop and a gate, and q the gate and an output: the mark of an output is a load and no site, and z,
  with one load, has a pin that is no site
~run sim n t r
~given n
INPUT(a)
q = DFF(a)
OUTPUT(q)
z = AND(a, q)
y = NOT(z)
~given t
~ends 0 total 10 detected 0
~has r
circuit inputs 1 outputs 1 flip-flops 1 gates 2 faults 14 classes 10
1 a s-a-0 undetected
2 a s-a-1 undetected
~has r
7 y s-a-0 as 6
8 y s-a-1 as 5
9 q(1) s-a-0 undetected
10 q(1) s-a-1 undetected
11 z(1) s-a-0 as 5
12 z(1) s-a-1 undetected
13 z(2) s-a-0 as 5
~# a NAND of one pin inverts
~run sim n t r
~given n
INPUT(a)
OUTPUT(z)
z = NAND(a)
~given t
~ends 0 total 2 detected 0
~has r
3 z s-a-0 as 2
4 z s-a-1 as 1
~run sim n t r
~given n
~given t
~ends 0 total 0 detected 0
~left r
circuit inputs 0 outputs 0 flip-flops 0 gates 0 faults 0 classes 0
total 0 detected 0
~# forty buffers, of which all faults are detected: more classes than a group has faults
~run sim n t r
~times 40 n
INPUT(a%)
~times 40 n
OUTPUT(z%)
~times 40 n
z% = BUFF(a%)
~given t
1111111111111111111111111111111111111111
0000000000000000000000000000000000000000
~ends 0 total 80 detected 80
~# tests name their first malformed line
~run sim n t r
~given n < SHIFT_REGISTER
~with t 7 tests: line 2
1
x
~none r
~with t 7 tests: line 1
10
~with t 7 tests: line 2
1

~with t 7 tests: line 1
1\r0
~# what isn't there can't be read; a refused netlist needs no tests
~ends 4 read fault
~none r
~run sim n t r
~ends 4 read fault
~with n 3 netlist: line 1: bad line
INPUT(=)
";

pub const STARTED: &str =
    "~line HEAD circuit inputs 0 outputs 1 flip-flops 1 gates 1 faults 6 classes 4
~line FAULT_4 4 n s-a-1 undetected
~line TOTAL total 4 detected 3
~text TOGGLE_FROM_0 < HEAD TOGGLE_1_TO_3 FAULT_4 TOGGLE_5_AND_6 TOTAL
~# detections are from the start
~run sim n t r --start s
~given n < TOGGLE
~given t


~with s 0 total 4 detected 3
0
~left r < TOGGLE_FROM_0
~with s 0 total 4 detected 3
0\r~left r < TOGGLE_FROM_0
~each s 0 total 4 detected 0
x
X\r
~# without one all four classes are undetected
~run sim n t r
~given n < TOGGLE
~given t


~ends 0 total 4 detected 0
~# without flip-flops an empty text is a start, and so is an empty line
~run sim n t r --start s
~given n
~given t
~with s 0 total 0 detected 0
~with s 0 total 0 detected 0

~# a start is one line with a value for each flip-flop, and is refused before malformed tests
~run sim n t r --start s
~given n < TOGGLE
~given t
0
~each s 8 start: line 1
2
01
-
~none r
~with s 8 start: line 1
~with s 8 start: line 1

0
~with s 8 start: line 2
0

~with s 8 start: line 2
0
0
~with s 7 tests: line 1
1
~# `causes` says of each class where the tests detect it, or why they don't
~run causes n t r
~given n < SHIFT_REGISTER
~with t 7 tests: line 2
1
2
~none r
~with t 0 total 6 detected 3 possible 0 stored 2 stopped 0 unexcited 1 unknown 0
1
0
0
~left r
circuit inputs 1 outputs 1 flip-flops 2 gates 0 faults 6 classes 6
1 a s-a-0 detected 3 r
2 a s-a-1 stored 2 q
3 q s-a-0 detected 3 r
4 q s-a-1 stored 3 r
5 r s-a-0 detected 3 r
6 r s-a-1 unexcited
total 6 detected 3 possible 0 stored 2 stopped 0 unexcited 1 unknown 0
";
