//! `gen`: the three files.

pub const ROWS: &str =
    "~# over the empty netlist the report has no lines, and a vector is an empty line
~run gen n t r p --random 3
~given n
~given t < OLD_TESTS
~ends 0 total 0 detected 0 untestable 0 aborted 0
~left t



~left r
circuit inputs 0 outputs 0 flip-flops 0 gates 0 faults 0 classes 0 budget 1000
total 0 detected 0 untestable 0 aborted 0
~left p < FORMAT_2 END
~# The latch stays unknown, so each fault is aborted: the search back spends its budget, and so does the sweep.
~run gen n t r p --budget 10
~given n < TOGGLE
~line OF_2_ABORTED entry 2 aborted
~line OF_4_ABORTED entry 4 aborted
~ends 0 total 4 detected 0 untestable 0 aborted 4
~left t
~left p < FORMAT_2 OF_1_ABORTED OUTPUT_1_IS_1 BACK_TO_1 SWEEP LENGTHS_1_TO_4 OF_2_ABORTED OUTPUT_1_IS_0 BACK_TO_0 SWEEP LENGTHS_1_TO_4 OF_3_ABORTED STATE_IS_0 BACK_TO_0 SWEEP LENGTHS_1_TO_4 OF_4_ABORTED STATE_IS_1 BACK_TO_1 SWEEP LENGTHS_1_TO_4 END
~# a flip-flop that takes its own value: a difference stays in it, and there is no output
~run gen --budget 8 n t r p
~given n
q = DFF(q)
~ends 0 total 2 detected 0 untestable 2 aborted 0
~text STAYS
z 1
walk
dead
~left p < FORMAT_2 OF_1 STAYS OF_2 STAYS END
~# the first input goes nowhere
~run gen n t r p
~given n < INPUTS_A_B
OUTPUT(b)
~given t < OLD_TESTS
~ends 0 total 4 detected 2 untestable 2 aborted 0
~left t
01
00
~has r
1 a s-a-0 untestable
2 a s-a-1 untestable
3 b s-a-0 detected 1 b
4 b s-a-1 detected 2 b
~# differences reach the flip-flops, and stay there
~run gen n t r p
~given n < HIDDEN
~ends 0 total 8 detected 2 untestable 6 aborted 0
~left t
1
0
~has p < FORMAT_2 OF_3
z 2
walk
dead
~has p
entry 6 untestable
walk
dead
entry 7 untestable
z 1
z 2
walk
dead
~# The search of fault 2 spends its one token; the vector for fault 3 then detects it, and its entry stays.
~run gen n t r p --budget=1
~given n < WIRES
~ends 0 total 4 detected 4 untestable 0 aborted 0
~left t
10
01
~left p < FORMAT_2 OF_2_ABORTED ONE_TOKEN SWEEP_OF_ONE
~# the random vector detects the faults 2 and 3, so no search is made for them
~run gen n t r p --random 1 --seed=2
~given n < WIRES
~ends 0 total 4 detected 4 untestable 0 aborted 0
~left t
01
10
~has r
1 a s-a-0 detected 2 a
2 a s-a-1 detected 1 a
3 b s-a-0 detected 1 b
~left p < FORMAT_2 END
~# with so small a budget the attempts forward find what the sweep can't
~run gen n t --budget 3 r p
~given n < SHIFT_REGISTER
~text FOUND
1
0
0
0
0
0
~ends 0 total 6 detected 6 untestable 0 aborted 0
~left t < FOUND
~left p < FORMAT_2 END
~# three vectors detect each fault, and the sweep has budget for as many: 1*4 + 2*8 + 3*16
~run gen n t r p --budget 68
~given n < SHIFT_REGISTER
~ends 0 total 6 detected 6 untestable 0 aborted 0
~# the six vectors are given, and detect all
~run gen n t r p --budget 3 --first f
~given n < SHIFT_REGISTER
~given f < FOUND
~ends 0 total 6 detected 6 untestable 0 aborted 0
~left t < FOUND
~run gen n t r p --budget=3 --weighted=3 --seed=1
~given n < SHIFT_REGISTER
~ends 0 total 6 detected 6 untestable 0 aborted 0
~left t
1
1
1
0
0
0
~left p < FORMAT_2 END
~# The fault of entry 1 spoils its own justification: the attempt has a list, and it doesn't detect.
~run gen n --budget=6 t r p
~given n < CHANGE
~ends 0 total 10 detected 10 untestable 0 aborted 0
~left t
1
0
0
0
1
1
~has r
8 p(1) s-a-1 detected 3 z
9 z(2) s-a-0 detected 5 z
10 z(2) s-a-1 detected 2 z
~left p < FORMAT_2 OF_1_ABORTED SPOILED JUSTIFY_1 SWEEP_OF_2
~# the 20 faults that have a representative of a lesser number are those of `sim`
~run gen n t r p
~given n < S27
~ends 0 total 32 detected 32 untestable 0 aborted 0
~has r
circuit inputs 4 outputs 1 flip-flops 3 gates 10 faults 52 classes 32 budget 1000
1 G0 s-a-0 detected ~has r

50 G10(2) s-a-1 as 27
51 G13(2) s-a-0 detected ~# from 00 on the two flip-flops are equal, so the fault that shows where they differ is
  refuted from there
~run gen n t r p
~given n < TWINS
~ends 0 total 14 detected 10 untestable 2 aborted 2
~has r
3 b s-a-0 untestable
4 b s-a-1 untestable
~line NEXT entry 4 untestable from 00
~has p < FROM_00 Q_WITH_P P_WITH_Q EQUAL NEXT Q_WITH_P P_WITH_Q EQUAL END
~# the latch stays unknown whatever comes
~run gen n t r p --budget 10 --search deep
~given n < TOGGLE
~ends 0 total 4 detected 0 untestable 0 aborted 0 undetectable 4
~has r
4 n s-a-1 undetectable
5 n(1) s-a-0 as 4
~left p
proofs 3
entry 1 undetectable by sets
pairs 1 X1 XX
entry 2 undetectable by sets
pairs 1 X0 XX
entry 3 undetectable by sets
pairs 1 X0 XX
entry 4 undetectable by sets
pairs 1 X1 XX
end
~# fault 3 alone is worked on; the others are simulated, by no vectors
~run gen n t r p --faults l
~given n < ALWAYS_ZERO
~with l 0 total 6 detected 0 untestable 1 aborted 0 undetected 5
3
~left t
~has r
2 a s-a-1 undetected
3 n s-a-0 untestable
4 n s-a-1 undetected
~left p < FORMAT_2 ZERO_3 END
~with l 0 total 6 detected 0 untestable 0 aborted 0 undetected 6
~# the vectors for these two detect another one; the last number is that of the last fault, and numbers rise
~with l 0 total 6 detected 3 untestable 0 aborted 0 undetected 3
4\r
10~with l 13 faults: line 2
3
3
~none r
~with l 13 faults: line 2
5
4
~with l 13 faults: line 2
3

~each l 13 faults: line 1
11
0
03
+3
~# the first vectors are read before the list of faults
~run gen n t r p --faults l --first f
~given n < ALWAYS_ZERO
~given f
2
~with l 7 tests: line 1
0
~run gen n t r p
~given n
a = NOT(b)
b = NOT(a)
~given t < OLD_TESTS
~ends 3 netlist: line 1: loop a b
~left t < OLD_TESTS
~# from 0 on the toggle counts
~run gen n t r p --budget=1 --random=2 --start=s
~given n < TOGGLE
~given t < OLD_TESTS
~line HEAD circuit inputs 0 outputs 1 flip-flops 1 gates 1 faults 6 classes 4 budget 1
~line FAULT_4 4 n s-a-1 aborted
~line TOTAL total 4 detected 3 untestable 0 aborted 1
~text COUNTED < HEAD TOGGLE_1_TO_3 FAULT_4 TOGGLE_5_AND_6 TOTAL
~text LO_1
walk
lo 1
~text OF_FAULT_4 < FORMAT_2 OF_4_ABORTED LO_1 SWEEP LENGTH_1 END
~with s 8 start: line 2
0
0
~left t < OLD_TESTS
~none r
~with s 0 total 4 detected 3 untestable 0 aborted 1
0
~left t


~left r < COUNTED
~left p < OF_FAULT_4
~# what `check` says of these files from this start and from others: fault 1 is detected at the first vector from 1, and
  at none from unknown
~run check n t r p --start s
~given n < TOGGLE
~given t


~given r < COUNTED
~given p < OF_FAULT_4
~with s 0 valid
0
~each s 1 denied: report line 2
1
x
~with s 8 start: line 1
2
";
