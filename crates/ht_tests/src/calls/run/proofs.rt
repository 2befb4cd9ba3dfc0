//! Texts of proofs and when their entries pass, by `report`, which tells the first line that is malformed.

/// Texts that are malformed at a line. No line before it ends an entry, so the netlist has no say.
pub const MALFORMED: &str = "~run report n t p r
~given n
~given t
~with p 0 total 0 detected 0 untestable 0 aborted 0
proofs 3
end
~left r
circuit inputs 0 outputs 0 flip-flops 0 gates 0 faults 0 classes 0 budget 1000
total 0 detected 0 untestable 0 aborted 0
~# no line, another head, no end, a line after the end
~with p 1 denied: proofs line 1
~none r
~each p 1 denied: proofs line 1
proofs 4
proofs 1\x20
~with p 1 denied: proofs line 2 < FORMAT_1
~with p 1 denied: proofs line 3 < FORMAT_1 END

~# numbers
~each p 1 denied: proofs line 2 < FORMAT_1
entry 0 untestable
entry 01 untestable
entry +1 untestable
entry 4294967296 untestable
entry  1 untestable
entry 1 detected
~# an entry that stands twice, or has no walk; a flip-flop that stands twice; a variable of number 0
~with p 1 denied: proofs line 4
proofs 1
entry 4294967295 untestable
walk
entry 4294967295 untestable
~text UNTESTABLE
proofs 1
entry 1 untestable
~with p 1 denied: proofs line 3 < UNTESTABLE END
~with p 1 denied: proofs line 4 < UNTESTABLE
z 1
z 1
~with p 1 denied: proofs line 4 < UNTESTABLE
walk
hi 0
~# a decision with no frame, of another bit, of a variable that doesn't rise
~text ABORTED
proofs 1
entry 1 aborted
~with p 1 denied: proofs line 3 < ABORTED
set 1 1
~with p 1 denied: proofs line 4 < ABORTED
frame state 1
set 1 2
~with p 1 denied: proofs line 5 < ABORTED
frame state 1
set 2 0
set 2 1
~# no sweep, a sweep of no walk, one that begins with 2 frames, and an aim after it
~with p 1 denied: proofs line 3 < ABORTED END
~each p 1 denied: proofs line 4 < ABORTED SWEEP
end
length 2
~with p 1 denied: proofs line 5 < ABORTED SWEEP
length 1
back open
~# vectors of two widths, a vector back after one ahead, and another character
~with p 1 denied: proofs line 5 < ABORTED
attempt
justify 10
ahead 1
~with p 1 denied: proofs line 5 < ABORTED
attempt
ahead 1
justify 1
~with p 1 denied: proofs line 4 < ABORTED
attempt
justify 1x
~# an entry from a state in the first format, and states that are none
~with p 1 denied: proofs line 2 < FORMAT_1
entry 1 untestable from 01
~each p 1 denied: proofs line 2 < FORMAT_2
entry 1 untestable from\x20
entry 1 untestable from -
entry 1 aborted from 01
~text FROM_01
proofs 2
entry 1 untestable from 01
~# before the first clause nothing else comes
~each p 1 denied: proofs line 3 < FROM_01
walk
z 1
dead
end
~# clauses of other literals, of the same flip-flop twice, of flip-flops that fall
~each p 1 denied: proofs line 3 < FROM_01
clause 0 1
clause 1 2
clause 1 0 2
clause 1 0 1 1
clause 2 0 1 1
clause 1 0 2 1 3 0
~# a clause or a token after a flip-flop, a flip-flop after the walk, and no walk
~line CLAUSE clause 1 0
~with p 1 denied: proofs line 5 < FROM_01 CLAUSE
z 1
clause 2 0
~with p 1 denied: proofs line 5 < FROM_01 CLAUSE
z 1
dead
~with p 1 denied: proofs line 5 < FROM_01 CLAUSE
walk
z 1
~with p 1 denied: proofs line 4 < FROM_01 CLAUSE
end
~# a clause in a plain refutation
~with p 1 denied: proofs line 3
proofs 2
entry 1 untestable
clause 1 0
~# sets and cubes in the second format
~each p 1 denied: proofs line 2 < FORMAT_2
entry 1 undetectable by sets
entry 1 undetectable by cubes
~# pairs out of order, twice, none; a flip-flop twice
~text BY_SETS
proofs 3
entry 1 undetectable by sets
~each p 1 denied: proofs line 3 < BY_SETS
pairs 1 XX X1
pairs 1 X1 X1
pairs 1
pairs 1 X1\x20
~with p 1 denied: proofs line 4 < BY_SETS
pairs 2 XX
pairs 2 XX
~# no cube, and one after a step; cubes of no rail, of half a rail, and of words and numbers that are none
~each p 1 denied: proofs line 3 < BY_CUBES
end
step by 1
~with p 1 denied: proofs line 5 < BY_CUBES
never good 1 0
step by 1
never good 1 0
~each p 1 denied: proofs line 3 < BY_CUBES
never
never good 1
never bad 1 0
never good 0 0
never good 1 2
never good 1 0\x20
~# steps without hints, and of numbers that are none
~line CUBE never faulty 4294967295 1 good 1 0
~each p 1 denied: proofs line 4 < BY_CUBES CUBE
step 1
step 1 by
step -0 by 1
step 4294967296 by 1
step by -1
~# the 33rd clause is one too many
~run report n t p r
~given n
~given t
~given p < FROM_01
~times 32 p
clause 1 0
~with p 1 denied: proofs line 36
walk
z 1
~with p 1 denied: proofs line 35
clause 2 0
";

/// Entries that pass or not, each of one fault; the others are undetected.
pub const PASSING: &str = "~text HI_1
walk
hi 1
~text DEAD
walk
dead
end
~# The difference stays in r, which nothing reads. Without that flip-flop its next state may differ, and there is no
  third one.
~run report n t p r
~given n < HIDDEN
~given t
~given p < FORMAT_2 OF_3
~line Z_2 z 2
~line Z_3 z 3
~with p 0 total 8 detected 0 untestable 1 aborted 0 undetected 7 < Z_2 DEAD
~with p 1 denied: fault 3 < DEAD
~with p 1 denied: fault 3 < Z_2 Z_3 DEAD
~# the output is the same and the next state isn't: the fault shows one frame later
~run report n t p r
~given n < TOGGLE
~given t
~with p 1 denied: fault 3 < FORMAT_2 OF_3 DEAD
~# There is one variable. It has two values, of which either may come first, and is decided once.
~run report n t p r
~given n < ALWAYS_ZERO
~given t
~given p < FORMAT_2 OF_3
~with p 0 total 6 detected 0 untestable 1 aborted 0 undetected 5
walk
lo 1
dead
dead
end
~with p 1 denied: fault 3 < HI_1
dead
end
~with p 1 denied: fault 3 < HI_1
dead
dead
dead
end
~with p 1 denied: fault 3 < HI_1
hi 1
dead
dead
dead
end
~with p 1 denied: fault 3
walk
hi 2
dead
dead
end
~with p 1 denied: fault 3
walk
x 1
dead
dead
end
~# an entry of a fault that isn't a representative
~run report n t p r
~given n < ALWAYS_ZERO
~given t
~with p 1 denied: fault 5
proofs 1
entry 5 untestable
walk
hi 1
dead
dead
end
~# The searches of the toggle's faults fill a budget of 10. The walks weigh more than 9, and leave room for a token of
  11.
~line FORWARD_OPEN forward open
~line NO_TOKEN walk
~run report n t p r --budget 10
~given n < TOGGLE
~given t
~with p 0 total 4 detected 0 untestable 0 aborted 1 undetected 3 < FORMAT_2 OF_1_ABORTED OUTPUT_1_IS_1 BACK_TO_1 SWEEP LENGTHS_1_TO_4 END
~with p 0 total 4 detected 0 untestable 0 aborted 1 undetected 3 < FORMAT_2 OF_3_ABORTED STATE_IS_0 BACK_TO_0 SWEEP LENGTHS_1_TO_4 END
~# from the told states the output shows a difference at once, so a token of sixteen frames is too much
~with p 0 total 4 detected 0 untestable 0 aborted 1 undetected 3 < FORMAT_2 OF_3_ABORTED STATE_IS_0 FORWARD_OPEN SWEEP LENGTHS_1_TO_4 END
~# there is no aim, one back to another latch value, one ahead from an output, a walk though an output is told
~with p 1 denied: fault 1 < FORMAT_2 OF_1_ABORTED OUTPUT_1_IS_1 SWEEP LENGTHS_1_TO_4 END
~with p 1 denied: fault 3 < FORMAT_2 OF_3_ABORTED STATE_IS_0 BACK_TO_1 SWEEP LENGTHS_1_TO_4 END
~with p 1 denied: fault 1 < FORMAT_2 OF_1_ABORTED OUTPUT_1_IS_1 FORWARD_OPEN SWEEP LENGTHS_1_TO_4 END
~with p 1 denied: fault 1 < FORMAT_2 OF_1_ABORTED OUTPUT_1_IS_1 NO_TOKEN BACK_TO_1 SWEEP LENGTHS_1_TO_4 END
~# a frame comes after an output
~with p 1 denied: fault 1 < FORMAT_2 OF_1_ABORTED OUTPUT_1_IS_1 STATE_1 IS_1 BACK_TO_1 SWEEP LENGTHS_1_TO_4 END
~run report n t p r --budget 9
~given n < TOGGLE
~given t
~with p 1 denied: fault 1 < FORMAT_2 OF_1_ABORTED OUTPUT_1_IS_1 BACK_TO_1 SWEEP LENGTHS_1_TO_4 END
~run report n t p r --budget 11
~given n < TOGGLE
~given t
~with p 1 denied: fault 1 < FORMAT_2 OF_1_ABORTED OUTPUT_1_IS_1 BACK_TO_1 SWEEP LENGTHS_1_TO_4 END
~# a budget of one token; without a told frame the walk has to be there
~run report n t p r --budget 1
~given n < WIRES
~given t
~line OF_2_ABORTED entry 2 aborted
~with p 0 total 4 detected 0 untestable 0 aborted 1 undetected 3 < FORMAT_2 OF_2_ABORTED ONE_TOKEN SWEEP_OF_ONE
~with p 1 denied: fault 2 < FORMAT_2 OF_2_ABORTED SWEEP_OF_ONE
~run report n t p r --budget 2
~given n < WIRES
~given t
~with p 1 denied: fault 2 < FORMAT_2 OF_2_ABORTED ONE_TOKEN SWEEP_OF_ONE
~# With p and a at 1 both machines show 0 in the frame, since the vector that brings p to 1 is spoiled. One that brings
  it to 0 is no justification, and with two vectors the second one detects the fault.
~run report n t p r --budget 6
~given n < CHANGE
~given t
~given p < FORMAT_2 OF_1_ABORTED SPOILED
~line JUSTIFY_0 justify 0
~with p 0 total 10 detected 0 untestable 0 aborted 1 undetected 9 < JUSTIFY_1 SWEEP_OF_2
~with p 0 total 10 detected 0 untestable 0 aborted 1 undetected 9 < JUSTIFY_1 JUSTIFY_1 SWEEP_OF_2
~with p 1 denied: fault 1 < JUSTIFY_0 SWEEP_OF_2
~with p 1 denied: fault 1 < JUSTIFY_0 JUSTIFY_1 SWEEP_OF_2
~# The clauses are kept from 00 and from 11 on, and the walk is complete under both. A state with a bit for each
  flip-flop has to meet both; from one that meets the first alone the machines differ. Format 1 has no such entry.
~run report n t p r
~given n < TWINS
~given t
~with p 0 total 14 detected 0 untestable 1 aborted 0 undetected 13 < FORMAT_2 FROM_00 Q_WITH_P P_WITH_Q EQUAL END
~line FROM_11 entry 3 untestable from 11
~with p 0 total 14 detected 0 untestable 1 aborted 0 undetected 13 < FORMAT_2 FROM_11 Q_WITH_P P_WITH_Q EQUAL END
~line FROM_01 entry 3 untestable from 01
~with p 1 denied: fault 3 < FORMAT_2 FROM_01 Q_WITH_P P_WITH_Q EQUAL END
~line FROM_0 entry 3 untestable from 0
~with p 1 denied: fault 3 < FORMAT_2 FROM_0 Q_WITH_P P_WITH_Q EQUAL END
~with p 1 denied: fault 3 < FORMAT_2 FROM_00 Q_WITH_P EQUAL END
~with p 1 denied: proofs line 2 < FORMAT_1 FROM_00 Q_WITH_P P_WITH_Q EQUAL END
~# the start excludes the state
~run report n t p r --start s
~given n < TWINS
~given t
~given p < FORMAT_2 FROM_00 Q_WITH_P P_WITH_Q EQUAL END
~each s 1 denied: fault 3
11
X1
~with s 0 total 14 detected 0 untestable 1 aborted 0 undetected 13
0x
~# The faulty latch is 1 after the first frame, and the good one unknown. Without a line the latch has the start's pair
  alone, and a start that is known is in no set here.
~run report n t p r --start s
~given n < TOGGLE
~given t
~given p
proofs 3
entry 1 undetectable by sets
pairs 1 X1 XX
end
~with s 0 total 4 detected 0 untestable 0 aborted 0 undetectable 1 undetected 3
X
~with s 1 denied: fault 1
0
~run report n t p r
~given n < TOGGLE
~given t
~with p 1 denied: fault 1
proofs 3
entry 1 undetectable by sets
end
~# The good latch is never surely 0 and never surely 1. The step has the empty clause: each hint's clause leaves one
  literal, and all of the last one are false, so none can be left out; and a start of 0 is in a cube.
~run report n t p r
~given n < TOGGLE
~given t
~text CUBES
never good 1 0
never good 1 1
~given p < BY_CUBES CUBES
~with p 0 total 4 detected 0 untestable 0 aborted 0 undetectable 1 undetected 3
step by 6 7 10 3 4 9 8 11
end
~with p 1 denied: fault 1
step by 7 10 3 4 9 8 11
end
~with p 1 denied: fault 1
step by 6 7 10 3 4 8 11
end
~with p 1 denied: fault 1
step by 6 7 10 3 4 9 8
end
~with p 1 denied: fault 1
end
~run report n t p r --start s
~given n < TOGGLE
~given t
~given p < BY_CUBES CUBES
step by 6 7 10 3 4 9 8 11
end
~with s 0 total 4 detected 0 untestable 0 aborted 0 undetectable 1 undetected 3
x
~with s 1 denied: fault 1
0
";
