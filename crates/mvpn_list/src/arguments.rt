// The mode that the program's arguments ask for (document 02, W-206).
ghost use Rattle.std.specs.Prelude.{◌≡◌};
ghost use Rattle.runs.specs.Modes.{mode_number};
ghost use Rattle.mvpn_list.specs.Listing.{mode_of};

use runs::Mode;

// By how many arguments there are, the program's own name among them, and the one after the name: the old mode for `old` alone.
pub(crate) fn mode_of(count: usize, argument: &[u8]) -> Mode
    ensures { mode_number result ≡ mode_of count argument.now }
{
    if count == 2 && octets::order::is_same(argument, b"old") {
        return Mode::Old;
    }
    Mode::Skip
}
