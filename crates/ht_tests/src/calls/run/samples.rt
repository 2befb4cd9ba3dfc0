//! Circuits that several texts of rows name, and what is known of them.

/// Paragraphs of texts with names.
pub const SAMPLES: &str = "~line OLD_TESTS old tests
~# Two flip-flops between an input and an output.
~text SHIFT_REGISTER
INPUT(a)
OUTPUT(r)
q = DFF(a)
r = DFF(q)
~# Its report under the vectors 1, 0, 0.
~text SHIFT_REGISTER_REPORT
circuit inputs 1 outputs 1 flip-flops 2 gates 0 faults 6 classes 6
1 a s-a-0 detected 3 r
2 a s-a-1 undetected
3 q s-a-0 detected 3 r
4 q s-a-1 undetected
5 r s-a-0 detected 3 r
6 r s-a-1 undetected
total 6 detected 3
~# The toggle: a latch that takes the complement of its own value, and shows it.
~text TOGGLE
OUTPUT(q)
q = DFF(n)
n = NOT(q)
~# Parts of its reports from 0 on: the vectors are empty lines, and the second shows three faults.
~text TOGGLE_1_TO_3
1 q s-a-0 detected 2 q
2 q s-a-1 detected 1 q
3 n s-a-0 detected 2 q
~text TOGGLE_5_AND_6
5 n(1) s-a-0 as 4
6 n(1) s-a-1 as 3
~# The flip-flops stand behind the output, which shows the input.
~text HIDDEN
INPUT(a)
OUTPUT(a)
q = DFF(a)
r = DFF(q)
~# The output is always 0.
~text ALWAYS_ZERO
INPUT(a)
OUTPUT(z)
n = NOT(a)
z = AND(a, n)
~# The report of `gen` for it, with two vectors, in parts.
~line ZERO_HEAD circuit inputs 1 outputs 1 flip-flops 0 gates 2 faults 10 classes 6 budget 1000
~text ZERO_2_TO_4
1 a s-a-0 untestable
2 a s-a-1 untestable
3 n s-a-0 untestable
~line ZERO_5 4 n s-a-1 detected 1 z
~text ZERO_6_TO_11
5 z s-a-0 as 3
6 z s-a-1 detected 1 z
7 n(1) s-a-0 as 4
8 n(1) s-a-1 as 3
9 z(1) s-a-0 as 3
10 z(1) s-a-1 detected 2 z
~line ZERO_TOTAL total 6 detected 3 untestable 3 aborted 0
~# Its proofs, in parts.
~line FORMAT_1 proofs 1
~line FORMAT_2 proofs 2
~line FORMAT_3 proofs 3
~text ZERO_WALK
walk
hi 1
dead
dead
~line OF_1 entry 1 untestable
~line OF_2 entry 2 untestable
~text ZERO_1_AND_2 < OF_1 ZERO_WALK OF_2 ZERO_WALK
~line OF_3 entry 3 untestable
~text ZERO_3 < OF_3 ZERO_WALK
~line END end
~text INPUTS_A_B
INPUT(a)
INPUT(b)
~# Two flip-flops with one data net: x is 1 in no frame but the first.
~text TWINS < INPUTS_A_B
OUTPUT(z)
p = DFF(a)
q = DFF(a)
x = XOR(p, q)
z = AND(x, b)
~# Two inputs that are outputs.
~text WIRES < INPUTS_A_B
OUTPUT(a)
OUTPUT(b)
~# The output is 1 where the input changes.
~text CHANGE
INPUT(a)
OUTPUT(z)
p = DFF(a)
z = XOR(p, a)
~# The first input is an output too, so its stem and its pin at the gate are two lines.
~text AND_GATE < INPUTS_A_B
OUTPUT(a)
OUTPUT(z)
z = AND(a, b)
~# The input is an output, and drives an inverter and a flip-flop that are outputs too, so its stem and the two pins
  are three lines.
~text BRANCHES
INPUT(a)
OUTPUT(a)
OUTPUT(z)
OUTPUT(q)
q = DFF(a)
z = NOT(a)
~# s27 as it is known, with its header.
~text S27
# s27
# 4 inputs
# 1 outputs
# 3 D-type flipflops
# 2 inverters
# 8 gates (1 ANDs + 1 NANDs + 2 ORs + 4 NORs)

INPUT(G0)
INPUT(G1)
INPUT(G2)
INPUT(G3)

OUTPUT(G17)

G5 = DFF(G10)
G6 = DFF(G11)
G7 = DFF(G13)

G14 = NOT(G0)
G17 = NOT(G11)

G8 = AND(G14, G6)

G15 = OR(G12, G8)
G16 = OR(G3, G8)

G9 = NAND(G16, G15)

G10 = NOR(G14, G11)
G11 = NOR(G5, G9)
G12 = NOR(G1, G7)
G13 = NOR(G2, G12)
~# Parts of aborted entries of the toggle, whose latch stays unknown: the search back to 1 and to 0, each with ten
  tokens, and the sweep with the lengths 1 to 4.
~line OF_1_ABORTED entry 1 aborted
~line OF_3_ABORTED entry 3 aborted
~line OUTPUT_1 frame output 1
~line STATE_1 frame state 1
~line IS_0 set 1 0
~line IS_1 set 1 1
~line THEN_0 set 2 0
~text OUTPUT_1_IS_0 < OUTPUT_1 IS_0
~text OUTPUT_1_IS_1 < OUTPUT_1 IS_1
~text STATE_IS_0 < STATE_1 IS_0 OUTPUT_1_IS_1 THEN_0
~text STATE_IS_1 < STATE_1 IS_1 OUTPUT_1_IS_1 THEN_0
~line BACK back open
~text BEFORE
x 1
before
~text DEAD_BEFORE
x 1
dead
before
~text BACK_TO_1 < BACK BEFORE DEAD_BEFORE BEFORE DEAD_BEFORE
~text BACK_TO_0 < BACK DEAD_BEFORE BEFORE DEAD_BEFORE BEFORE
~line SWEEP sweep
~text LENGTH_1
length 1
dead
length 2
~text LENGTHS_1_TO_4 < LENGTH_1
dead
length 3
dead
length 4
dead
length 5
~# The aborted entry of two inputs with a budget of one token, after its first line.
~text ONE_TOKEN
walk
hi 1
~text SWEEP_OF_ONE
sweep
length 1
hi 1
end
~# Parts of the aborted entry of what changes: with p and the input at 1 a list of one vector is found, and doesn't
  detect.
~text SPOILED
frame output 1
set 1 1
set 2 1
attempt
~line JUSTIFY_1 justify 1
~text SWEEP_OF_2 < SWEEP LENGTH_1
hi 1
hi 2
end
~# Parts of the entry of the twins: where p is 1, q is; where q is 1, p is; and there is no difference then.
~line FROM_00 entry 3 untestable from 00
~text Q_WITH_P
clause 1 0 2 1
hi 1
dead
dead
~text P_WITH_Q
clause 1 1 2 0
lo 1
dead
dead
~text EQUAL
walk
hi 3
hi 4
dead
dead
hi 4
dead
dead
~# The first lines of proofs with one entry by cubes.
~text BY_CUBES
proofs 3
entry 1 undetectable by cubes
";
