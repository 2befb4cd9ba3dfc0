//! Netlists: normal texts and refusals, each by `norm`.

pub const ROWS: &str = "~text NORMAL
INPUT(a)
INPUT(b)
OUTPUT(z)
z = NAND(t, b)
t = BUFF(a)
~# spaces, tabs, letter case, CR LF, a comment, and an output that is named twice
~run norm n r
~given n
input(a)\r
\tINPUT ( b )\r
OUTPUT(z) # seen\r
OUTPUT(z)\r
z = nand( t , b )\r
t = BUF(a)\r
~ends 0
~left r < NORMAL
~run norm n r
~given n < NORMAL
~ends 0
~left r < NORMAL
~# names of any printed bytes, also those of keywords; lines in any order; lines that state nothing
~run norm n r
~given n

OUTPUT = and(;[7]\"$,INPUT)
 \t\x20
  #INPUT(a)
OUTPUT(x)
x=xnor ( OUTPUT,\tINPUT,OUTPUT )\x20
\t inPut\t( ;[7]\"$ )# the first
INPUT=dff(OUTPUT)#
OUTPUT(OUTPUT)
\r~ends 0
~left r
INPUT(;[7]\"$)
OUTPUT(x)
OUTPUT(OUTPUT)
INPUT = DFF(OUTPUT)
OUTPUT = AND(;[7]\"$, INPUT)
x = XNOR(OUTPUT, INPUT, OUTPUT)
~# the loop goes through a flip-flop
~run norm n r
~given n
q = DFF(q)
~ends 0
~left r
q = DFF(q)
~run norm n r
~given n
~ends 0
~left r
~# lines without a form: the last one may break off
~run norm n r
~with n 3 netlist: line 3: bad line
INPUT(a)
OUTPUT(g)
g = AND(a,~none r
~each n 3 netlist: line 1: bad line
z
z = AND(,a)
z = AND(a b)
z = AND(a))
z == AND(a)
z = AND a
INPUT(=)
INPUT()
LATCH(\u{e9})
~# a CR is a byte of its line but where it ends it
~with n 3 netlist: line 1: bad line
INPUT(a)\r\r
~with n 3 netlist: line 4: bad line
#a\r
#b\rINPUT(

last
~# a name is judged before the kind, and the kind before the count
~each n 3 netlist: line 1: bad name
INPUT(\x7f)
a\r = AND(b)
z = MUX(\u{e9})
~each n 3 netlist: line 1: bad kind
z = MUX(a, b)
z = MUX()
z = \u{e9}(a)
~each n 3 netlist: line 1: bad count
z = AND()
z = NOT(a, b)
q = DFF()
~# the first line counts, and on it the first cause
~with n 3 netlist: line 2: second driver a
INPUT(a)
INPUT(a)
z = MUX(
~with n 3 netlist: line 3: second driver a
OUTPUT(z)
INPUT(a)
a = NOT(a)
~with n 3 netlist: line 1: undriven z
OUTPUT(z)
~with n 3 netlist: line 1: undriven x
q = DFF(x)
z = AND(q, y)
~with n 3 netlist: line 2: undriven A
INPUT(a)
z = AND(a, A)
OUTPUT(y)
~# a loop is told along the gates, from the net that is named first; a net without a driver goes before it
~with n 3 netlist: line 2: undriven z
a = NOT(a)
OUTPUT(z)
~with n 3 netlist: line 1: loop a b
a = NOT(b)
b = NOT(a)
~with n 3 netlist: line 3: loop a b
c = NOT(a)
b = NOT(a)
a = NOT(b)
~with n 3 netlist: line 1: loop a
a = AND(a, b)
INPUT(b)
~with n 3 netlist: line 2: loop x z y
INPUT(a)
x = NAND(y, y)
y = NAND(z, z)
z = NAND(a, x)
";
