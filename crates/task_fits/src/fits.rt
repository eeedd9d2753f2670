// Whether a record fits (01, Tasks and their steps, last paragraph): one match on the phase says what is asked, and
// nothing else here looks at the phase.
ghost use Rattle.std.specs.Prelude.{◌≡◌, ◌&&◌, ltb, leb, eqb};
ghost use Rattle.rules.specs.Record as spec;
ghost use Rattle.rules.specs.Record.{implies, fits_hand};
ghost use Rattle.task_fits.specs.Fit.{fits_left, fits_right, fits_work, at_end};

use crate::phase::Phase;
use rules::Task;
use table_words::key::home_place;
use table_words::place::right_of;
use table_words::shape::{GoodShape, within};

// The key is in range, and left below the home.
#[tactic(auto, unfolding(rules::specs::Record::home_place_of))]
fn left_fits(sh: GoodShape, t: Task) -> bool
    ensures { result ≡ fits_left sh.shape t }
{
    sh.has_key(t.key) && t.left < home_place(sh, t.key).0
}

// Besides, right is above the home, up to the right guard.
#[tactic(auto, using(table_words::specs::Range::homes_high, table_words::specs::Split::split_in_shape), unfolding(rules::specs::Record::home_place_of))]
fn right_fits(sh: GoodShape, t: Task) -> bool
    ensures { result ≡ fits_right sh.shape t }
{
    left_fits(sh, t)
        && within(
            right_of(home_place(sh, t.key)).0,
            sh.right_guard().0,
            t.right,
        )
}

fn mark_fits(t: Task) -> bool
    ensures { result ≡ (leb t.mark 2 && implies (eqb t.mark 1) (leb 2 t.goal && ltb t.left t.goal)) }
{
    if t.mark == 1 {
        2 <= t.goal && t.left < t.goal
    } else {
        t.mark <= 2
    }
}

#[tactic(auto, unfolding(rules::specs::Record::fits_hand))]
fn hand_fits(sh: GoodShape, t: Task) -> bool
    ensures { result ≡ fits_hand sh.shape t }
{
    let high = sh.homes();
    within(1, high, t.hand)
        && within(1, high, t.goal)
        && within(t.left, t.right, t.hand)
        && within(t.left, t.right, t.goal)
        && mark_fits(t)
}

// Key, left and right fit, and so do hand, goal and mark.
fn work_fits(sh: GoodShape, t: Task) -> bool
    ensures { result ≡ fits_work sh.shape t }
{
    right_fits(sh, t) && hand_fits(sh, t)
}

// The hand is at one of the ends.
fn at_end(t: Task) -> bool
    ensures { result ≡ at_end t }
{
    t.hand == t.left || t.hand == t.right
}

#[tactic(auto, unfolding(rules::specs::Record::fits, rules::specs::Record::at_rest, rules::specs::Record::busy, rules::specs::Record::fits_busy))]
pub fn fits(sh: GoodShape, t: Task) -> bool
    ensures { result ≡ spec.fits sh.shape t }
{
    let Ok(phase) = Phase::try_from(t.phase) else {
        return false;
    };
    match phase {
        Phase::Idle | Phase::Done => true,
        Phase::Home => sh.has_key(t.key),
        Phase::LookLeft => left_fits(sh, t),
        Phase::LookRight
        | Phase::LockLeft
        | Phase::LockRight
        | Phase::BackOff
        | Phase::Read
        | Phase::FreeLeft
        | Phase::FreeRight => right_fits(sh, t),
        Phase::FillHand => work_fits(sh, t) && at_end(t),
        Phase::Move => work_fits(sh, t) && t.hand != t.goal,
        Phase::Mark => work_fits(sh, t) && t.hand == t.goal,
    }
}
