// Instances: their signals, what passes through their ports, and the order of the equations.
use crate::answer::gives;
use std::test::Fail;

// The ports of the root, then its local names; an instance stands at its place with all that it holds. At each
// place of the order stands the first signal whose equation uses placed ones alone: u.a, since s and c wait for
// v and c1, then each as soon as what it uses stands. The example of `docs/LANGUAGE.md` for instances.
#[test]
fn two_half_adders(rt: HostRuntime) -> Result<(), Fail> {
    gives(
        &rt,
        rt.alloc(),
        "MODULE Half(IN a, b: BIT; OUT s, c: BIT);
        BEGIN s := a ^ b; c := a & b END Half.
        MODULE Full(IN x, y, z: BIT; OUT s, c: BIT);
        VAR u, v: Half; s1, c1, c2: BIT;
        BEGIN u(x, y, s1, c1); v(s1, z, s, c2); c := c1 | c2 END Full.",
        "Full
        ports x y z s c
        x input 1
        y input 1
        z input 1
        s wire 1 = v.s
        c wire 1 = or(c1, c2)
        u.a wire 1 = x
        u.b wire 1 = y
        u.s wire 1 = xor(u.a, u.b)
        u.c wire 1 = and(u.a, u.b)
        v.a wire 1 = s1
        v.b wire 1 = z
        v.s wire 1 = xor(v.a, v.b)
        v.c wire 1 = and(v.a, v.b)
        s1 wire 1 = u.s
        c1 wire 1 = u.c
        c2 wire 1 = v.c
        order u.a u.b u.s u.c v.b s1 v.a v.s s v.c c1 c2 c",
    )
}

// Where the statements stand means nothing, and a name may be used before the statement that sets it. An argument
// is an expression over the names of the caller; a constant of the inner module isn't that of the outer one.
#[test]
fn an_argument_is_an_expression_of_the_caller(rt: HostRuntime) -> Result<(), Fail> {
    gives(
        &rt,
        rt.alloc(),
        "MODULE In(IN a: BYTE; OUT b: [3] BIT); CONST n := 2'2; BEGIN b := a[4 : n] END In.
        MODULE Out(IN a: [7] BIT; OUT n: [3] BIT); CONST m := 1; VAR c: [3] BIT; u: In;
        BEGIN n := c + 1'3; u({m, a}, c) END Out.",
        "Out
        ports a n
        a input 7
        n wire 3 = add(c, 1'3)
        c wire 3 = u.b
        u.a wire 8 = {1'1!1, a!1}
        u.b wire 3 = u.a[4:2]
        order u.a u.b c n",
    )
}

// An instance in an instance: what the innermost one holds stands where it is declared.
#[test]
fn instances_stand_in_instances(rt: HostRuntime) -> Result<(), Fail> {
    gives(
        &rt,
        rt.alloc(),
        "MODULE A(IN x: BIT; OUT y: BIT); BEGIN y := ~x END A.
        MODULE B(IN x: BIT; OUT y: BIT); VAR p: BIT; a: A; q: BIT;
        BEGIN a(p, q); p := x; y := q END B.
        MODULE C(IN x: BIT; OUT y: BIT); VAR a, b: B; z: BIT;
        BEGIN b(z, y); a(x, z) END C.",
        "C
        ports x y
        x input 1
        y wire 1 = b.y
        a.x wire 1 = x
        a.y wire 1 = a.q
        a.p wire 1 = a.x
        a.a.x wire 1 = a.p
        a.a.y wire 1 = not(a.a.x)
        a.q wire 1 = a.a.y
        b.x wire 1 = z
        b.y wire 1 = b.q
        b.p wire 1 = b.x
        b.a.x wire 1 = b.p
        b.a.y wire 1 = not(b.a.x)
        b.q wire 1 = b.a.y
        z wire 1 = a.y
        order a.x a.p a.a.x a.a.y a.q a.y z b.x b.p b.a.x b.a.y b.q b.y y",
    )
}

// The example of `docs/LANGUAGE.md` for pads.
#[test]
fn a_pad_is_driven_by_an_instance(rt: HostRuntime) -> Result<(), Fail> {
    gives(
        &rt,
        rt.alloc(),
        "MODULE Pin(INOUT p: BYTE; IN d: BYTE; z: BIT; OUT i: BYTE);
        BEGIN TS(p, i, d, z) END Pin.
        MODULE Port(INOUT r: BYTE; IN d: BYTE; z: BIT; OUT i: BYTE);
        VAR u: Pin;
        BEGIN u(r, d, z, i) END Port.",
        "Port
        ports r d z i
        r pad 8 = mux(u.z, outside(r), u.d)
        d input 8
        z input 1
        i wire 8 = u.i
        u.p wire 8 = r
        u.d wire 8 = d
        u.z wire 1 = z
        u.i wire 8 = u.p
        order u.d u.z r u.p u.i i",
    )
}

// A pad is driven two instances down: its equation stands at the port of the root, and each INOUT port on the way
// has the value of its argument.
#[test]
fn a_pad_is_driven_two_instances_down(rt: HostRuntime) -> Result<(), Fail> {
    gives(
        &rt,
        rt.alloc(),
        "MODULE Pin(INOUT p: BYTE; IN d: BYTE; z: BIT; OUT i: BYTE); BEGIN TS(p, i, d, z) END Pin.
        MODULE Mid(INOUT q: BYTE; IN d: BYTE; z: BIT; OUT i: BYTE); VAR u: Pin;
        BEGIN u(q, d, z, i) END Mid.
        MODULE Top(INOUT r: BYTE; IN d: BYTE; z: BIT; OUT i: BYTE); VAR v: Mid;
        BEGIN v(r, d, z, i) END Top.",
        "Top
        ports r d z i
        r pad 8 = mux(v.u.z, outside(r), v.u.d)
        d input 8
        z input 1
        i wire 8 = v.i
        v.q wire 8 = r
        v.d wire 8 = d
        v.z wire 1 = z
        v.i wire 8 = v.u.i
        v.u.p wire 8 = v.q
        v.u.d wire 8 = v.d
        v.u.z wire 1 = v.z
        v.u.i wire 8 = v.u.p
        order v.d v.z v.u.d v.u.z r v.q v.u.p v.u.i v.i i",
    )
}

// Two pads that are passed on in turned order, and driven at three and at two instances down.
#[test]
fn pads_are_passed_through_three_levels(rt: HostRuntime) -> Result<(), Fail> {
    gives(
        &rt,
        rt.alloc(),
        "MODULE A(INOUT p: BIT; IN d: BIT); VAR i: BIT; BEGIN TS(p, i, d, ~i) END A.
        MODULE B(INOUT p: BIT; IN d: BIT); VAR a: A; BEGIN a(p, d) END B.
        MODULE C(INOUT p, q: BIT; IN d: BIT); VAR b: B; a: A; BEGIN b(p, d); a(q, ~d) END C.
        MODULE D(INOUT p, q: BIT; IN d: BIT); VAR c: C; BEGIN c(q, p, d) END D.",
        "loop p c.q c.a.p c.a.i",
    )?;
    gives(
        &rt,
        rt.alloc(),
        "MODULE A(INOUT p: BIT; IN d: BIT); VAR i: BIT; BEGIN TS(p, i, d, ~d) END A.
        MODULE B(INOUT p: BIT; IN d: BIT); VAR a: A; BEGIN a(p, d) END B.
        MODULE C(INOUT p, q: BIT; IN d: BIT); VAR b: B; a: A; BEGIN b(p, d); a(q, ~d) END C.
        MODULE D(INOUT p, q: BIT; IN d: BIT); VAR c: C; BEGIN c(q, p, d) END D.",
        "D
        ports p q d
        p pad 1 = mux(not(c.a.d), outside(p), c.a.d)
        q pad 1 = mux(not(c.b.a.d), outside(q), c.b.a.d)
        d input 1
        c.p wire 1 = q
        c.q wire 1 = p
        c.d wire 1 = d
        c.b.p wire 1 = c.p
        c.b.d wire 1 = c.d
        c.b.a.p wire 1 = c.b.p
        c.b.a.d wire 1 = c.b.d
        c.b.a.i wire 1 = c.b.a.p
        c.a.p wire 1 = c.q
        c.a.d wire 1 = not(c.d)
        c.a.i wire 1 = c.a.p
        order c.d c.b.d c.b.a.d q c.p c.b.p c.b.a.p c.b.a.i c.a.d p c.q c.a.p c.a.i",
    )
}
