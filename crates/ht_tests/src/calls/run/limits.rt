//! Limits: what is at one, and what is past one.

pub const ROWS: &str = "~run norm n r
~given n
INPUT(i0)
~times 4096 n
INPUT(i%)
~once 3 netlist: line 4097: too many inputs
~none r
~run norm n r
~given n
INPUT(a)
~times 65535 n
n% = BUFF(a)
~once 3 netlist: line 65536: too many nets
~run norm n r
~given n
INPUT(a)
~times 16385 n
q% = DFF(a)
~once 3 netlist: line 16386: too many flip-flops
~# the first two gates and 1,027 of 255 pins have all 262,144 pins; a is read 255 times: seven lines of 34 and one of 17
~run norm n r
~given n
INPUT(a)
z = AND(a, a, a, a)
~times 1029 n
g% = AND(a, a, a, a, a, a, a, a, a, a, a, a, a, a, a, a, a, a, a, a, a, a, a, a, a, a, a, a, a, a, a, a, a, a, \
    a, a, a, a, a, a, a, a, a, a, a, a, a, a, a, a, a, a, a, a, a, a, a, a, a, a, a, a, a, a, a, a, a, a, \
    a, a, a, a, a, a, a, a, a, a, a, a, a, a, a, a, a, a, a, a, a, a, a, a, a, a, a, a, a, a, a, a, a, a, \
    a, a, a, a, a, a, a, a, a, a, a, a, a, a, a, a, a, a, a, a, a, a, a, a, a, a, a, a, a, a, a, a, a, a, \
    a, a, a, a, a, a, a, a, a, a, a, a, a, a, a, a, a, a, a, a, a, a, a, a, a, a, a, a, a, a, a, a, a, a, \
    a, a, a, a, a, a, a, a, a, a, a, a, a, a, a, a, a, a, a, a, a, a, a, a, a, a, a, a, a, a, a, a, a, a, \
    a, a, a, a, a, a, a, a, a, a, a, a, a, a, a, a, a, a, a, a, a, a, a, a, a, a, a, a, a, a, a, a, a, a, \
    a, a, a, a, a, a, a, a, a, a, a, a, a, a, a, a, a)
~once 3 netlist: line 1031: too many pins
~# a gate of 256 arguments, and a name of 256 bytes
~run norm n r
~given n
INPUT(a)
g1 = AND(a~times 255 n
, a~with n 3 netlist: line 2: bad count
)
~run norm n r
~given n
INPUT(a~times 255 n
b~with n 3 netlist: line 1: bad name
)
~# two walks over a gate of 255 pins, of which each decides 200 inputs
~run report n t p r --budget 200
~times 255 n
INPUT(a%)
~given n
OUTPUT(z)
z = AND(a1~times 254 n
, a^~given n
)
~given t
~given p
proofs 1
entry 1 aborted
walk
~times 200 p
hi %
~given p
sweep
length 1
~times 200 p
hi %
~with p 0 total 257 detected 0 untestable 0 aborted 1 undetected 256
end
";

/// Long texts.
pub const LONG: &str =
    "~# a chain of 20,000 gates, with its lines from the end: a value goes through it
~run respond n t r
~given n
INPUT(n20001)
OUTPUT(n1)
~times 20000 n
n% = BUFF(n^)
~with t 0 responses vectors 1 outputs 1
1
~left r
1
~# a comment of 16,777,216 bytes, and of one byte more
~run norm n r
~times 65536 n
################################################################\
    ################################################################\
    ################################################################\
    ################################################################~ends 0
~left r
~given n
#~once 3 netlist: too long
~none r
";

/// The longest entry that is asked for.
pub const TOKENS: &str = "~# an entry of 100,000 tokens, of which the second doesn't fit
~run report n t p r
~given n < ALWAYS_ZERO
~given t
~given p < FORMAT_2
entry 3 untestable
walk
~times 100000 p
hi %
~given p < END
~once 1 denied: fault 3
";
