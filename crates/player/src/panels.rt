// Lines about the four panels.
ghost use Rattle.std.specs.Prelude.{◌≡◌, ◌≤◌, length, take};
ghost use Rattle.text.specs.Text.{Puts};
ghost use Rattle.booth.specs.Booth.{rounded_booth, round_lent};
ghost use Rattle.player.specs.Play.{zero_line, after_panel, round_line, after_round, longest_text};

use crate::running::{fresh_buffer, keep, size_by};
use crate::{Played, Player};
use booth::{Booth, BoothRounded};
use replies::Reply;

// `panel K`
pub(crate) fn panel(mut player: Player, place: usize, text: &mut [u8], at: usize) -> Played
    ensures player_value { result.player ≡ after_panel player place }
    ensures puts { Puts text.old at zero_line text.new result.at }
{
    player.booth = booth::select(player.booth, place);
    Played {
        player,
        at: text::put_text(text, at, b"0\n"),
    }
}

// A round that is lent the first bytes of a buffer.
fn round_within(
    booth: Booth,
    marks: usize,
    limit: usize,
    room: usize,
    buffer: &mut [u8],
) -> BoothRounded
    requires { room ≤ length buffer.old }
    ensures value { result ≡ rounded_booth booth marks limit (take room buffer.old) }
    ensures buffer_after { take room buffer.new ≡ round_lent booth marks limit (take room buffer.old) }
{
    booth::round(booth, marks, limit, &mut buffer[..room])
}

// `round P B L`
pub(crate) fn round(
    mut player: Player,
    marks: usize,
    limit: usize,
    room: usize,
    text: &mut [u8],
    at: usize,
) -> Played
    requires { room ≤ 8192 }
    ensures player_value { result.player ≡ after_round player marks limit room }
    ensures puts { Puts text.old at (round_line player marks limit room) text.new result.at }
    ensures line_fits { length (round_line player marks limit room) ≤ longest_text }
{
    let mut buffer = fresh_buffer();
    let rounded = round_within(player.booth, marks, limit, room, &mut buffer);
    player.booth = rounded.booth;
    let shown = &buffer[..room];
    Played {
        at: replies::put_line(text, at, Reply::Lent(rounded.numbers), shown),
        player: keep(player, size_by(rounded.numbers), shown, 0),
    }
}
