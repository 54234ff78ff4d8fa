// What a board is made with, in words: n, m and release, and the layout's version behind them. A board has one, so no
// generic function needs it in words.
ghost use Rattle.std.specs.Prelude.{◌≡◌};
ghost use Rattle.layout.specs.Layout.{release_of, release_number, setup_from, setup_fields};
ghost use Rattle.layout.specs.Standing.{release_stands, setup_stands};

use crate::{BOARD_WORDS, LAYOUT, SETUP_WORDS};
use parts::{Release, Setup};

#[tactic(auto, unfolding(crate::specs::Layout::setup_from))]
pub(crate) fn setup_from(w: &[u32; BOARD_WORDS]) -> Setup
    ensures { result ≡ setup_from w.now }
{
    Setup {
        n: w[0],
        m: w[1],
        release: release_of(w[2]),
    }
}

#[tactic(auto, unfolding(crate::specs::Layout::setup_fields))]
pub(crate) fn setup_words(setup: Setup) -> [u32; SETUP_WORDS]
    ensures { result ≡ setup_fields setup }
{
    [setup.n, setup.m, release_number(setup.release), LAYOUT]
}

#[tactic(auto, unfolding(crate::specs::Standing::setup_stands))]
pub(crate) fn setup_stands(w: &[u32; BOARD_WORDS]) -> bool
    ensures { result ≡ setup_stands w.now }
{
    release_stands(w[2]) && w[3] == LAYOUT
}

#[tactic(auto, unfolding(crate::specs::Standing::release_stands))]
fn release_stands(number: u32) -> bool
    ensures { result ≡ release_stands number }
{
    number == 1 || number == 2
}

// Functions and no From: neither a release nor u32 is a type of this crate.
#[tactic(auto, unfolding(crate::specs::Layout::release_of))]
fn release_of(number: u32) -> Release
    ensures { result ≡ release_of number }
{
    match number {
        2 => Release::Two,
        _ => Release::One,
    }
}

#[tactic(auto, unfolding(crate::specs::Layout::release_number))]
fn release_number(release: Release) -> u32
    ensures { result ≡ release_number release }
{
    match release {
        Release::One => 1,
        Release::Two => 2,
    }
}
