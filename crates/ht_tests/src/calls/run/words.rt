//! Words: the forms of each command, and words that have none.

pub const ROWS: &str = "~text USAGE
usage: sim NETLIST TESTS REPORT [--start FILE], gen NETLIST TESTS REPORT PROOFS [--budget N] [--random N] [--seed S] [--start FILE] [--first FILE] [--faults FILE] [--weighted N] [--search plain|deep|full] [--work N], check NETLIST TESTS REPORT PROOFS [--start FILE], norm NETLIST OUT, demo SIZE SEED, compact NETLIST TESTS OUT [--runs N], diagnose NETLIST TESTS RESPONSES OUT, uninit NETLIST OUT [--budget N], sync NETLIST TESTS OUT [--budget N], respond NETLIST TESTS OUT [--fault N] [--start FILE] [--lines], report NETLIST TESTS PROOFS REPORT [--budget N] [--start FILE], breed NETLIST TESTS OUT [--vectors N] [--seed S] [--start FILE], causes NETLIST TESTS OUT [--start FILE]
~run
~given n < SHIFT_REGISTER
~given t
1
0
0
~ends 2 < USAGE
~none r
~# the first word is the command, and the others are too few or too many; the first `--` is left out
~words 2 err < USAGE
help
Sim n t r
sim
sim n t
sim n t r x
sim -- n t r x
sim n -t r
sim --- t r
sim --help
sim --version
norm --help
norm n
norm n r x
gen n t r
gen n t r p x
check n t r
compact n t
diagnose n t r
uninit n
sync n r
respond n t
report n t p
breed n t
demo 16
demo 0 1
demo 20001 1
~# a number is in digits, from its least value to its greatest; an option stands once, by its whole name, before `--`
~words 2 err < USAGE
gen n t r p --budget 0
gen n t r p --budget 100001
gen n t r p --budget=18446744073709551617
gen n t r p --budget
uninit n r --budget=0
uninit n r --random 3
gen n t r p --budget=
gen n t r p --budget -5
gen n t r p --budget=+5
gen n t r p --budget 0x5
check n t r p --start=s --start=s
sim n t r --start -s
gen n t r p --budget 5 --budget 5
gen n t r p -- --budget 5
gen n t r p --bud 5
gen n t r p -b 5
breed n t r --vectors 100001
compact n t r --runs 65
gen n t r p --work 0
gen n t r p --search wide
respond n t r --fault 0
respond n t r --fault=655359
respond n t r --lines=true
respond n t r --lines --lines
respond n t r --fault --lines
sim n t r --lines
gen n t r p --random x
gen n t r p --random 100001
gen n t r p --weighted=100001
sim n t r --budget 5
norm n r --start s
gen n t r p --search wide
gen n t r p --search Deep
gen n t r p --first
report n t p r --budget=0
~# the names of files stand in any place but an option's
~run
~given n < SHIFT_REGISTER
~given t
1
0
0
~given -t
1
0
0
~given -
0X
~given -s
X0
~words 0 out
total 6 detected 3
sim n t r
sim -- n t r
sim n t r --
sim n -- -t --r
sim n -- t --
~words 0 out
total 6 detected 5
sim n t r --start -
sim n --start - -- -t r
~words 0 out
total 6 detected 4
sim --start=-s n t r
~words 0 out
responses vectors 3 outputs 1
respond n t r
respond n --fault=3 t --start - r
~words 0 out
responses vectors 3 lines 3
respond n t r --lines
respond n --lines t --start - r
respond --fault 3 --lines n t -- r
~words 0 r
 classes 6 budget 1000
gen n t r p
gen n --random 5 t r p --seed=5
uninit n r
~words 0 r
 classes 6 budget 5
gen n t r p --budget 5
gen n t --budget=5 r p
gen --budget=005 n t r p
gen --budget 5 -- n t r p
uninit n --budget=5 -- r
~words 0 r
 classes 6 budget 100000
gen n t r p --budget=0000000100000
~words 0 r
 classes 6 budget 1
gen n t r p --budget 1
~words 0 p
proofs 3
gen --search=deep n t --weighted 007 r p
~words 0 p
proofs 2
gen n t r p --search plain
~words 0 r
sync flip-flops 2 budget 1000
sync n t r
sync n t --budget 1000 r
~words 0 -
q = DFF(a)
norm n -
norm -- n -
";
