//! The commands that need few rows: `demo`, `diagnose`, `respond`, `breed`, `uninit` and `sync`.

pub const ROWS: &str = "~run demo 16 3
~ends 0
circuit inputs 16 outputs 12 flip-flops 2 gates 16 faults 110 classes 84 budget 10
total 84 detected 25 untestable 34 aborted 25
~none t
~none r
~none p
~# `diagnose` names the faults that explain what was observed
~run diagnose n t s r
~given n < SHIFT_REGISTER
~given t
1
0
0
~with s 0 total 6 consistent 3
X
X
0
~left r
diagnosis vectors 3 faults 6 classes 6
good contradicted 3 r
1 a s-a-0 consistent
2 a s-a-1 contradicted 3 r
3 q s-a-0 consistent
4 q s-a-1 contradicted 3 r
5 r s-a-0 consistent
6 r s-a-1 contradicted 3 r
total 6 consistent 3
~with s 0 total 6 consistent 3
X
1
1~has r
good consistent
1 a s-a-0 contradicted 3 r
2 a s-a-1 consistent
3 q s-a-0 contradicted 2 r
4 q s-a-1 consistent
~# a row is missing, one too many, too wide, or has a small x; tests are read before
~with s 10 responses: line 3
X
X
~none r
~with s 10 responses: line 4
X
X
0
1
~with s 10 responses: line 2
X
00
~with s 10 responses: line 1
x
~with t 7 tests: line 4
2
~# `respond` writes what a machine shows
~run respond n t r
~given n < SHIFT_REGISTER
~given t
1
0
0
~ends 0 responses vectors 3 outputs 1
~left r
X
X
1
~run respond n t r --fault 1
~given n < SHIFT_REGISTER
~given t
1
0
0
~ends 0 responses vectors 3 outputs 1
~left r
X
X
0
~run respond n t r
~given n < SHIFT_REGISTER
~with t 0 responses vectors 0 outputs 1
~left r
~run respond n t r --lines
~given n < S27
~given t
1100
~ends 0 responses vectors 1 lines 17
~left r
1100XXX0100011001
~run respond n t r --start s
~given n < TOGGLE
~given t

\r~with s 0 responses vectors 2 outputs 1
0
~left r
0
1
~# a fault that the circuit lacks is refused before the tests, and a start before the fault
~run respond n t r --start s --fault 7
~given n < SHIFT_REGISTER
~with s 12 fault: above 6
00
~none r
~with s 8 start: line 1
0
~run respond n t r --fault 6
~given n < SHIFT_REGISTER
~with t 7 tests: line 1
2
~# `breed` writes the tests, and after them at most so many vectors: none where all is detected, or there are no inputs
~run breed n t r --vectors 0
~given n < SHIFT_REGISTER
~with t 7 tests: line 3
1
0
2
~none r
~with t 0 vectors 3 bred 0 detected 3 of 6
1
0
0~left r
1
0
0
~run breed n t r
~given n
INPUT(a)
OUTPUT(a)
~with t 0 vectors 2 bred 0 detected 2 of 2
1
0
~run breed n t r --start s
~given n < TOGGLE
~given t
~with s 8 start: line 1
2
~none r
~with s 0 vectors 0 bred 0 detected 0 of 4
0
~left r
~# each kind of gate by Kleene's tables, of a known and an unknown argument, and the gates that take one or three
~run respond n t r
~given n
INPUT(a)
q = DFF(q)
z1 = AND(a, q)
z2 = NAND(a, q)
z3 = OR(a, q)
z4 = NOR(a, q)
z5 = XOR(a, q)
z6 = XNOR(a, q)
z7 = NOT(a)
z8 = XOR(a, a, a)
z9 = BUFF(q)
~times 9 n
OUTPUT(z%)
~with t 0 responses vectors 2 outputs 9
1
0
~left r
XX10XX01X
01XXXX10X
~# The toggle keeps itself unknown, and its output shows nothing.
~run uninit n r
~given n < TOGGLE
~ends 0 total 4 hidden 4 held 1
~left r
uninit flip-flops 1 outputs 1 faults 6 classes 4 budget 1000
held 1
dead
mute 1
dead
1 q s-a-0 hidden
2 q s-a-1 hidden
3 n s-a-0 hidden
4 n s-a-1 hidden
5 n(1) s-a-0 as 4
6 n(1) s-a-1 as 3
total 4 hidden 4 held 1
~# A shift register takes what comes in.
~run uninit n r
~given n < SHIFT_REGISTER
~ends 0 total 6 hidden 0 held 0
~has r
free 1
free 2
set 2 0
seen 1
set 3 0
1 a s-a-0 possible
~# Two latches have to be decided before their XOR is known, and a budget of 1 is spent at the first. What q holds is
  read nowhere.
~run uninit n r --budget 1
~given n < INPUTS_A_B
OUTPUT(z)
p = DFF(a)
r = DFF(b)
q = DFF(z)
z = XOR(p, r)
~ends 0 total 14 hidden 4 held 0
~has r
uninit flip-flops 3 outputs 1 faults 14 classes 14 budget 1
free 1
free 2
spent 3
x 3
open 1
x 3
1 a s-a-0 possible
~has r
8 r s-a-1 possible
9 q s-a-0 hidden
10 q s-a-1 hidden
11 z s-a-0 possible
12 z s-a-1 possible
13 q(1) s-a-0 hidden
~# `sync` finds a shortest list after which every flip-flop is definite: with the second vector a 0 comes to the second
  one
~run sync n t r
~given n < HIDDEN
~given t < OLD_TESTS
~ends 0 sync 2
~left t
0
0
~left r
sync flip-flops 2 budget 1000
length 1
dead
found 2
state 00
~# No list makes the toggle definite. Lengths 1 to 4 take a budget of 10.
~run sync n t r --budget 10
~given n < TOGGLE
~given t < OLD_TESTS
~ends 0 spent 4
~left t
~line SYNC sync flip-flops 1 budget 10
~line SPENT spent
~left r < SYNC LENGTHS_1_TO_4 SPENT
~run sync n t r
~given n < ALWAYS_ZERO
~ends 0 sync 0
~left t
~left r
sync flip-flops 0 budget 1000
found 0
state -
";
