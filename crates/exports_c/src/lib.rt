//! The static library for callers in C: the function of the crate exports, under its symbol and with the call of C.
#![tactic(auto)]

ghost use Rattle.std.specs.Prelude.{length};
ghost use Rattle.windows.specs.Answer.{judged_into};
ghost use Rattle.exports.specs.Exported.{rows_from, Exported};

// The answer to a list of rows on a board with this many cores, with the bounds in the first entries of the lent list.
#[unsafe(no_mangle)]
pub extern "C" fn dipperslate_analyse(cores: u32, rows: &[[u64; 3]], bounds: &mut [u64]) -> u64
    ensures { Exported (judged_into cores (length bounds.old) (rows_from rows.now))
        bounds.old bounds.new result }
{
    exports::dipperslate_analyse(cores, rows, bounds)
}
