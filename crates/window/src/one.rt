// Operations on the places of one array, of which the first `n` are in use. The number stands beside the slice, since
// `join` sets the place behind them, and each promises what the places behind hold (`window.placed`).
ghost use Rattle.std.specs.Prelude.{◌≡◌, [], ◌∷◌, ◌++◌, take, drop};
ghost use Rattle.window.specs.Places.{placed};

// Puts `x` after the used places, if there is one more place.
pub(crate) fn join(xs: &mut [u32], n: usize, x: u32)
    ensures { xs.new ≡ placed n (take n xs.old ++ (x ∷ [])) xs.old }
{
    if n < xs.len() {
        xs[n] = x;
    }
}

// Removes the first `gone`, or all where fewer are in use: the others move down, and the freed places are set to 0.
pub(crate) fn leave(xs: &mut [u32], n: usize, gone: usize)
    ensures { xs.new ≡ placed n (drop gone (take n xs.old)) xs.old }
{
    if xs.len() < n {
        return;
    }
    let gone = gone.min(n);
    let keep = n - gone;
    xs.copy_within(gone..n, 0);
    crate::wipe(&mut xs[keep..n]);
}

// Makes `x` the only one in use.
pub(crate) fn start(xs: &mut [u32], n: usize, x: u32)
    ensures { xs.new ≡ placed n (x ∷ []) xs.old }
{
    if n <= xs.len() {
        leave(xs, n, n);
        join(xs, 0, x);
    }
}
