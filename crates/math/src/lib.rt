// Small dense linear algebra: linear systems by Gaussian elimination with partial pivoting, and least squares by
// the normal equations, in f64. Every float is taken, NaN included. Each function is its definition of specs/,
// bit for bit and in the order of the Rust's operations.
//
// Matrices are row by row: row r and column k of an n by n matrix stand at r * n + k.
// Slices: a matrix and its right-hand side are parameters, and no struct: a struct of them holds two `&mut` slices,
// and a record of what a step changes would have to say of both that they are still the same ones.
// Facts: `Equations` says that n equations are there, `Cell` that a row and a column lie in the matrix; they are the
// facts of the two slices. `terms` with a row's length, and n with the length of x, are of one slice each: a struct of
// one slice and a count is no plainer.
#![tactic(auto)]

ghost use Rattle.std.specs.Prelude.{◌≡◌, ◌*◌, ◌<◌, ◌≤◌, ltb, length};
ghost use Rattle.loops.specs.Loops.{turn_of};
ghost use Rattle.float.specs.Select.{abs};
ghost use Rattle.answers.specs.Answers.{said, outcome_number};
ghost use Rattle.math.specs.Gauss as spec;
ghost use Rattle.math.specs.Gauss.{Alike, system, settled, final};
ghost use Rattle.math.specs.Normal as normal;
ghost use Rattle.math.specs.Normal.{grown, fitted};
ghost use Rattle.math.specs.Ready.{Cell, Equations};

use answers::Refusal;

// ---- a matrix

// The element at row r and column k.
fn at(a: &[f64], n: usize, r: usize, k: usize) -> f64
    requires { Cell n a.now r k }
    ensures { result ≡ spec.at n a.now r k }
{
    a[r * n + k]
}

// v at row r and column k.
fn put(a: &mut [f64], n: usize, r: usize, k: usize, v: f64)
    requires { Cell n a.old r k }
    ensures { a.new ≡ spec.put n a.old r k v }
{
    a[r * n + k] = v;
}

// ---- the pivot

// |x| for comparisons: a zero may have either sign, which no comparison sees. (`f64::abs` tests for a zero too: a
// search for a pivot takes a tenth longer with it.)
fn magnitude(x: f64) -> f64
    ensures { Alike result (abs x) }
{
    if x < 0.0 { -x } else { x }
}

// The row of the larger magnitude in column `col`, of rows p and r: p where they are equal.
#[tactic(auto, unfolding(crate::specs::Gauss::larger))]
fn larger(a: &[f64], n: usize, col: usize, r: usize, p: usize) -> usize
    requires { Cell n a.now r col × (p < n) }
    ensures { (result ≡ spec.larger n a.now col r p) × (result < n) }
{
    if magnitude(at(a, n, r, col)) > magnitude(at(a, n, p, col)) {
        r
    } else {
        p
    }
}

// The row at or below `col` of the largest magnitude in column `col`.
// By index: a column is a stride of the slice.
fn pivot_row(a: &[f64], n: usize, col: usize) -> usize
    requires { (col < n) × (n * n ≤ length a.now) }
    ensures { (result ≡ spec.pivot_row n a.now col) × (result < n) }
{
    let mut pivot = col;
    for r in col + 1..n {
        pivot = larger(a, n, col, r, pivot);
    }
    pivot
}

// Exchanges rows r and q.
// By hand: `swap_with_slice` wants the two rows apart, and they are parts of one slice, in either order.
// By index: for the same reason, an element of each at a time.
fn swap_rows(a: &mut [f64], n: usize, r: usize, q: usize)
    requires { (r < n) × (q < n) × (n * n ≤ length a.old) }
    ensures { a.new ≡ spec.swap_rows n r q a.old }
{
    for k in 0..n {
        a.swap(r * n + k, q * n + k);
    }
}

// Exchanges rows p and `col` of the system.
fn bring_up(a: &mut [f64], b: &mut [f64], n: usize, col: usize, p: usize)
    requires { Equations n a.old b.old × (col < n) × (p < n) }
    ensures { system a.new b.new ≡ spec.bring_up n col p (system a.old b.old) }
{
    if p != col {
        swap_rows(a, n, col, p);
        b.swap(col, p);
    }
}

// ---- elimination

// Takes f times row `col` from row r, from column `col` on.
// By index: two rows of one slice, of which one is written.
fn subtract_row(a: &mut [f64], n: usize, col: usize, r: usize, f: f64)
    requires { Cell n a.old r col }
    ensures { a.new ≡ spec.subtract_row n col r f a.old }
{
    for k in col..n {
        let v = at(a, n, r, k) - f * at(a, n, col, k);
        put(a, n, r, k, v);
    }
}

// Clears column `col` of row r, d being the pivot.
fn eliminate_row(a: &mut [f64], b: &mut [f64], n: usize, col: usize, d: f64, r: usize)
    requires { Equations n a.old b.old × (r < n) × (col < n) }
    ensures { system a.new b.new ≡ spec.eliminate_row n col d r (system a.old b.old) }
{
    let f = at(a, n, r, col) / d;
    if f != 0.0 {
        subtract_row(a, n, col, r, f);
        b[r] -= f * b[col];
    }
}

// Clears column `col` of each row below its own.
// By index: a column is a stride of the slice.
fn eliminate_below(a: &mut [f64], b: &mut [f64], n: usize, col: usize)
    requires { Equations n a.old b.old × (col < n) }
    ensures { system a.new b.new ≡ spec.eliminate_below n col (system a.old b.old) }
{
    let d = at(a, n, col, col);
    for r in col + 1..n {
        eliminate_row(a, b, n, col, d, r);
    }
}

// Clears column `col` below the diagonal, and says whether its pivot is large enough. A NaN pivot is.
fn eliminate_column(a: &mut [f64], b: &mut [f64], n: usize, col: usize) -> bool
    requires { Equations n a.old b.old × (col < n) }
    ensures { turn_of result (system a.new b.new) ≡ spec.eliminate_column n col (system a.old b.old) }
{
    let p = pivot_row(a, n, col);
    if magnitude(at(a, n, p, col)) < 1e-12 {
        return false;
    }
    bring_up(a, b, n, col, p);
    eliminate_below(a, b, n, col);
    true
}

// Makes the system triangular, and says whether every pivot was large enough.
// By index: a turn works on column `col` of the whole matrix.
fn eliminate(a: &mut [f64], b: &mut [f64], n: usize) -> bool
    requires { Equations n a.old b.old }
    ensures { turn_of result (system a.new b.new) ≡ spec.eliminate n (system a.old b.old) }
{
    for col in 0..n {
        if !eliminate_column(a, b, n, col) {
            return false;
        }
    }
    true
}

// ---- back substitution

// What row r leaves for its unknown: b[r] less the products of the unknowns after it.
// By index: k is a column of the matrix and a place of x, and a zip of a part of each is no plainer.
fn residual(a: &[f64], b: &[f64], x: &[f64], n: usize, r: usize) -> f64
    requires { Equations n a.now b.now × (n ≤ length x.now) × (r < n) }
    ensures { result ≡ spec.residual n a.now b.now x.now r }
{
    let mut s = b[r];
    for k in r + 1..n {
        s -= at(a, n, r, k) * x[k];
    }
    s
}

// The unknowns of a triangular system, the last one first.
// By index: a turn reads the unknowns behind the one that it writes.
fn back_substitute(a: &[f64], b: &[f64], x: &mut [f64], n: usize)
    requires { Equations n a.now b.now × (n ≤ length x.old) }
    ensures { x.new ≡ spec.back_substitute n a.now b.now x.old }
{
    for r in (0..n).rev() {
        x[r] = residual(a, b, x, n, r) / at(a, n, r, r);
    }
}

// Core: whether the n by n system a x = b has a solution, which is written to x. Elimination is done in a and b,
// which are left as it leaves them, up to the column whose pivot is below 1e-12 where there is no solution; x is
// untouched then.
pub fn solve_core(a: &mut [f64], b: &mut [f64], x: &mut [f64], n: usize) -> bool
    requires { (n * n ≤ length a.old) × (n ≤ length b.old) × (n ≤ length x.old) }
    ensures { settled result a.new b.new x.new ≡ spec.gauss n a.old b.old x.old }
{
    let found = eliminate(a, b, n);
    if found {
        back_substitute(a, b, x, n);
    }
    found
}

// ---- the sentences

// Whether `len` is below p * q, which may be more than a usize holds.
fn below_product(len: usize, p: usize, q: usize) -> bool
    ensures { result ≡ ltb len (p * q) }
{
    q != 0 && len / q < p
}

// 5: a matrix, a right-hand side or a slice for the unknowns is too short.
#[tactic(auto, unfolding(crate::specs::Gauss::short_system))]
fn short_system(n: usize, a: usize, b: usize, x: usize) -> bool
    ensures { result ≡ spec.short_system n a b x }
{
    below_product(a, n, n) || b < n || x < n
}

// 5: one of two slices of a number for each term is too short.
#[tactic(auto, unfolding(crate::specs::Normal::short_pair))]
fn short_pair(terms: usize, p: usize, q: usize) -> bool
    ensures { result ≡ normal.short_pair terms p q }
{
    p < terms || q < terms
}

// 5: the rows, or the slice for the unknowns, are too short.
#[tactic(auto, unfolding(crate::specs::Normal::short_rows))]
fn short_rows(terms: usize, rows: usize, targets: usize, x: usize) -> bool
    ensures { result ≡ normal.short_rows terms rows targets x }
{
    below_product(rows, targets, terms) || x < terms
}

// 6: a matrix size or term count outside 1 to 18.
#[tactic(auto, unfolding(crate::specs::Gauss::bad_size))]
fn bad_size(n: usize) -> bool
    ensures { result ≡ spec.bad_size n }
{
    n < 1 || 18 < n
}

// The first of the two sentences that holds.
#[tactic(auto, unfolding(sentences::specs::Sentences::refusal))]
fn check(short: bool, bad: bool) -> Result<(), Refusal>
    ensures { outcome_number result ≡ spec.numbered short bad }
{
    if short {
        return Err(Refusal::Length);
    }
    if bad {
        return Err(Refusal::Count);
    }
    Ok(())
}

// ---- linear systems

// Whether the n by n system a x = b has a solution, which is written to x. It has none where a pivot is below 1e-12 in
// magnitude, and x is untouched then. Either way a and b are left as elimination leaves them, and tails stay. Refused:
// 5 where a is shorter than n * n, or b or x than n; 6 where n is not 1 to 18; nothing is written then.
pub fn solve(a: &mut [f64], b: &mut [f64], x: &mut [f64], n: usize) -> Result<bool, Refusal>
    ensures { final (said result) a.new b.new x.new ≡ spec.solve_of n a.old b.old x.old }
{
    check(short_system(n, a.len(), b.len(), x.len()), bad_size(n))?;
    Ok(solve_core(a, b, x, n))
}

// ---- the normal equations

// Row i of the matrix gains the products of row[i] with the whole row.
fn add_products(ata: &mut [f64], row: &[f64], terms: usize, i: usize)
    requires { (i < terms) × (terms * terms ≤ length ata.old) × (terms ≤ length row.now) }
    ensures { ata.new ≡ normal.add_products terms row.now i ata.old }
{
    for (j, &x) in row[..terms].iter().enumerate() {
        let v = at(ata, terms, i, j) + row[i] * x;
        put(ata, terms, i, j, v);
    }
}

// Each equation i gains the products of row[i] with the target and with the whole row.
fn add_lines(ata: &mut [f64], atb: &mut [f64], row: &[f64], target: f64, terms: usize)
    requires { Equations terms ata.old atb.old × (terms ≤ length row.now) }
    ensures { system ata.new atb.new ≡ normal.add_row terms row.now target (system ata.old atb.old) }
{
    for (i, &x) in row[..terms].iter().enumerate() {
        atb[i] += x * target;
        add_products(ata, row, terms, i);
    }
}

// Core: adds one row of `terms` numbers and its target to the normal equations.
pub fn add_row_core(ata: &mut [f64; 324], atb: &mut [f64], row: &[f64], target: f64, terms: usize)
    requires { (terms ≤ 18) × (terms ≤ length atb.old) × (terms ≤ length row.now) }
    ensures { system ata.new atb.new ≡ normal.add_row terms row.now target (system ata.old atb.old) }
{
    add_lines(ata, atb, row, target, terms);
}

// Adds one row of `terms` numbers and its target to the normal equations, whose matrix is made as [0.0; 324] and used
// up to terms * terms. Refused: 5 where the right-hand side or the row is shorter than `terms`; 6 where `terms` is
// not 1 to 18; nothing is written then.
pub fn add_row(
    ata: &mut [f64; 324],
    atb: &mut [f64],
    row: &[f64],
    target: f64,
    terms: usize,
) -> Result<(), Refusal>
    ensures { grown result (system ata.new atb.new) ≡ normal.add_row_of terms row.now target (system ata.old atb.old) }
{
    check(short_pair(terms, atb.len(), row.len()), bad_size(terms))?;
    add_row_core(ata, atb, row, target, terms);
    Ok(())
}

// 1e-9 on the diagonal, which keeps rows that leave a term open from giving a wild solution.
// By index: the diagonal is a stride of the slice.
fn nudge(ata: &mut [f64], terms: usize)
    requires { terms * terms ≤ length ata.old }
    ensures { ata.new ≡ normal.nudged terms ata.old }
{
    for i in 0..terms {
        let v = at(ata, terms, i, i) + 1e-9;
        put(ata, terms, i, i, v);
    }
}

// Core: finishes the normal equations: 1e-9 on the diagonal, then `solve_core`.
pub fn finish_core(ata: &mut [f64; 324], atb: &mut [f64], x: &mut [f64], terms: usize) -> bool
    requires { (terms ≤ 18) × (terms ≤ length atb.old) × (terms ≤ length x.old) }
    ensures { settled result ata.new atb.new x.new ≡ normal.finish terms (system ata.old atb.old) x.old }
{
    nudge(ata, terms);
    solve_core(ata, atb, x, terms)
}

// Finishes the normal equations: 1e-9 on the diagonal, then as `solve`. Refused: 5 where the right-hand side or x is
// shorter than `terms`; 6 where `terms` is not 1 to 18; nothing is written then.
pub fn finish(
    ata: &mut [f64; 324],
    atb: &mut [f64],
    x: &mut [f64],
    terms: usize,
) -> Result<bool, Refusal>
    ensures { final (said result) ata.new atb.new x.new ≡ normal.finish_of terms (system ata.old atb.old) x.old }
{
    check(short_pair(terms, atb.len(), x.len()), bad_size(terms))?;
    Ok(finish_core(ata, atb, x, terms))
}

// ---- least squares

// Every row, one for each target.
fn add_rows(ata: &mut [f64; 324], atb: &mut [f64], rows: &[f64], targets: &[f64], terms: usize)
    requires size { (0 < terms) × (terms ≤ 18) }
    requires long { (terms ≤ length atb.old) × (length targets.now * terms ≤ length rows.now) }
    ensures { system ata.new atb.new ≡ normal.add_rows terms rows.now targets.now (system ata.old atb.old) }
{
    for (row, &target) in rows.chunks_exact(terms).zip(targets) {
        add_row_core(ata, atb, row, target, terms);
    }
}

// Fits x so that each row of `terms` numbers, times x, comes nearest its target in the sum of squares, by `add_row`
// and `finish`, and says whether there is such an x: fewer rows than terms have none. x is untouched but where there is
// one, and its tail stays. Refused: 5 where `rows` is shorter than terms * targets.len(), or x than `terms`; 6 where
// `terms` is not 1 to 18.
pub fn least_squares(
    rows: &[f64],
    targets: &[f64],
    terms: usize,
    x: &mut [f64],
) -> Result<bool, Refusal>
    ensures { fitted (said result) x.new ≡ normal.least_squares_of terms rows.now targets.now x.old }
{
    check(
        short_rows(terms, rows.len(), targets.len(), x.len()),
        bad_size(terms),
    )?;
    if targets.len() < terms {
        return Ok(false);
    }
    let mut ata = [0.0f64; 324];
    let mut atb = [0.0f64; 18];
    add_rows(&mut ata, &mut atb, rows, targets, terms);
    Ok(finish_core(&mut ata, &mut atb, x, terms))
}
