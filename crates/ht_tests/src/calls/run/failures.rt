//! Where one call of the desk after the other fails: the status, and what stands then.

/// Each call of a run, and after the last of a port the one that doesn't come. The report has its total line only where
/// the run is whole. One read gives at most 20 bytes of the netlist, so the fifth finds its end.
pub const ROWS: &str = "~run gen n t r p
~given n < ALWAYS_ZERO
~most 20
~ends 0 total 6 detected 3 untestable 3 aborted 0
~left t
1
0
~left r < ZERO_HEAD ZERO_2_TO_4 ZERO_5 ZERO_6_TO_11 ZERO_TOTAL
~left p < FORMAT_2 ZERO_1_AND_2 ZERO_3 END
~fails
4 - - - 0: open netlist 0, read netlist 1, read netlist 2, read netlist 3, read netlist 4
5 - - - 0: create tests 0
5 0 - - 0: create report 0
5 0 0 - 0: create proofs 0
5 0 0 16 0: write tests 1
5 1 0 16 0: write tests 2
5 2 0 17 0: write report 1
5 2 11 17 1: write report 2
5 0 0 0 0: write proofs 1
5 0 0 1 0: write proofs 2
5 0 0 6 0: write proofs 3
5 0 0 11 0: write proofs 4
5 2 0 16 0: write proofs 5
5 2 11 17 0: write out 1
0 2 12 17 1: read netlist 5, write tests 3, write report 3, write proofs 6, write out 2, write err 1
~# the third piece of a longer netlist
~run gen n t r p
~given n < S27
~most 100
~fails
4 - - - 0: read netlist 3
~run sim n t r
~given n < SHIFT_REGISTER
~given t
1
0
0
~ends 0 total 6 detected 3
~fails
4 3 - - 0: open netlist 0, open tests 0
5 3 - - 0: create report 0
5 3 0 - 0: write report 1
5 3 7 - 1: write report 2
5 3 7 - 0: write out 1
~run norm n r
~given n < SHIFT_REGISTER
~ends 0
~left r < SHIFT_REGISTER
~fails
4 - - - 0: open netlist 0
5 - - - 0: create report 0
5 - 0 - 0: write report 1
";
