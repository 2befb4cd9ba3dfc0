//! `check`: valid files, and the first trouble of others.

pub const ROWS: &str = "~text TESTS
1
0
~# the proofs are of any of three formats, and there is no fourth
~run check n t r p
~given n < ALWAYS_ZERO
~given t < TESTS
~given r < ZERO_HEAD ZERO_2_TO_4 ZERO_5 ZERO_6_TO_11 ZERO_TOTAL
~with p 0 valid < FORMAT_2 ZERO_1_AND_2 ZERO_3 END
~with p 0 valid < FORMAT_1 ZERO_1_AND_2 ZERO_3 END
~with p 0 valid < FORMAT_3 ZERO_1_AND_2 ZERO_3 END
~line FORMAT_4 proofs 4
~with p 1 denied: proofs line 1 < FORMAT_4 ZERO_1_AND_2 ZERO_3 END
~# a word that is none; the last entry without its last token; no end, and a line after it
~with p 1 denied: proofs line 15 < FORMAT_2 ZERO_1_AND_2
entry 3 untestable
walk
hi 1
deaf
~with p 1 denied: fault 3 < FORMAT_2 ZERO_1_AND_2
entry 3 untestable
walk
hi 1
dead
end
~with p 1 denied: proofs line 17 < FORMAT_2 ZERO_1_AND_2 ZERO_3
~with p 1 denied: proofs line 18 < FORMAT_2 ZERO_1_AND_2 ZERO_3 END

~# entries 1 and 2 are missing: the first is named, as entry 3 begins; and entry 3, as the end comes
~with p 1 denied: fault 1 < FORMAT_2 ZERO_3
~with p 1 denied: fault 3 < FORMAT_2 ZERO_1_AND_2 END
~# the entry of a detected fault isn't judged
~with p 0 valid < FORMAT_2 ZERO_1_AND_2 ZERO_3
entry 4 untestable
walk
end
~# the report is read before the proofs, which are missing, and malformed tests before the report
~run check n t r p
~given n < ALWAYS_ZERO
~given t < TESTS
~ends 4 read fault
~with t 1 denied: tests line 3
2
~# the budget of the head is from 1 to 100,000, without a leading zero
~with r 1 denied: report line 2
circuit inputs 1 outputs 1 flip-flops 0 gates 2 faults 10 classes 6 budget 100000
~each r 1 denied: report line 1
circuit inputs 1 outputs 1 flip-flops 0 gates 2 faults 10 classes 6 budget 100001
circuit inputs 1 outputs 1 flip-flops 0 gates 2 faults 10 classes 6 budget 0
circuit inputs 1 outputs 1 flip-flops 0 gates 2 faults 10 classes 6 budget 010
circuit inputs 1 outputs 1 flip-flops 0 gates 2 faults 10 classes 7 budget 1000
circuit inputs 1 outputs 1 flip-flops 0 gates 2 faults 10 classes 6
~with r 1 denied: report line 1
~# lines of faults: their numbers, sites, verdicts and representatives
~run check n t r p
~given n < ALWAYS_ZERO
~given t < TESTS
~given r < ZERO_HEAD
~each r 1 denied: report line 2
1 a s-a-0 detected
1 a s-a-0 untestable\x20
1 a s-a-1 untestable
2 a s-a-0 untestable
1 a s-a-0 as 1
1  a s-a-0 untestable
~with r 1 denied: report line 2
~run check n t r p
~given n < ALWAYS_ZERO
~given t < TESTS
~given r < ZERO_HEAD ZERO_2_TO_4
~# the first vector detects fault 4 at the one output; the second isn't the first that does
~each r 1 denied: report line 5
4 n s-a-1 detected 2 z
4 n s-a-1 untestable
4 n s-a-1 detected 18446744073709551617 z
4 n s-a-1 detected 1 a
4 n s-a-1 detected 1
~each r 1 denied: report line 6 < ZERO_5
5 z s-a-0 as 4
5 z s-a-0 untestable
~# totals that aren't the sum, or say what they needn't, and a line after them
~run check n t r p
~given n < ALWAYS_ZERO
~given t < TESTS
~given r < ZERO_HEAD ZERO_2_TO_4 ZERO_5 ZERO_6_TO_11
~each r 1 denied: report line 12
total 6 detected 3 untestable 2 aborted 1
total 6 detected 3
total 6 detected 3 untestable 3 aborted 0 undetectable 0
total 6 detected 3 untestable 3 aborted 0 undetected 0
~with r 1 denied: report line 12
~with r 1 denied: report line 13 < ZERO_TOTAL ZERO_TOTAL
~# one that is said to be aborted counts so, its entry refutes it, and none that is undetected has an entry
~run check n t r p
~given n < ALWAYS_ZERO
~given t < TESTS
~given p < FORMAT_2 ZERO_1_AND_2 ZERO_3 END
~text ABORTED_1
1 a s-a-0 aborted
2 a s-a-1 untestable
3 n s-a-0 untestable
~text UNDETECTED_3
1 a s-a-0 untestable
2 a s-a-1 untestable
3 n s-a-0 undetected
~with r 1 denied: fault 1 < ZERO_HEAD ABORTED_1 ZERO_5 ZERO_6_TO_11
total 6 detected 3 untestable 2 aborted 1
~with r 1 denied: fault 3 < ZERO_HEAD UNDETECTED_3 ZERO_5 ZERO_6_TO_11
total 6 detected 3 untestable 2 aborted 0 undetected 1
~# `report` writes the report with which the files are valid
~run report n t p r
~given n < ALWAYS_ZERO
~given p < FORMAT_2 ZERO_1_AND_2 ZERO_3 END
~with t 0 total 6 detected 3 untestable 3 aborted 0 < TESTS
~left r < ZERO_HEAD ZERO_2_TO_4 ZERO_5 ZERO_6_TO_11 ZERO_TOTAL
~with t 0 total 6 detected 0 untestable 3 aborted 0 undetected 3
~with t 1 denied: tests line 1

~run check n t r p
~given n
~given t
~given r
circuit inputs 0 outputs 0 flip-flops 0 gates 0 faults 0 classes 0 budget 1000
total 0 detected 0 untestable 0 aborted 0
~with p 1 denied: proofs line 2
proofs 1
";
