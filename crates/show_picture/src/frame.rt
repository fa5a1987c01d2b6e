// Where things are in the picture, in pixels.

ghost use Rattle.std.specs.Prelude.{◌≤◌};

use crate::span::Window;
use group_spec::image::Sizes;

/// The left edge of the bands. Their names and floors stand left of it.
pub const LEFT: u64 = 72;

// What is right of the bands.
const RIGHT: u64 = 24;

// The least width of the bands, and the greatest of rounds that are as wide as can be; then they get narrower, down to two pixels. The greatest width of all.
const NARROW: u64 = 568;

const WIDE: u64 = 2300;

const WIDEST: u64 = 12_000;

// How wide a round is, where there is room, and where there is little.
const ROUND: u64 = 4;

const NARROW_ROUND: u64 = 2;

// What is above the first band: the title and the legend.
const TOP: u64 = 54;

// The height of a waiting call.
const LANE: u64 = 11;

// What is above the highest floor of a band: the denials; and below the lowest.
const ABOVE: u64 = 20;

const BELOW: u64 = 12;

// What is below the bands: the time.
const AXIS: u64 = 44;

/// How much a picture shows: these rounds of a group, and so many calls that wait.
#[derive(Clone, Copy)]
pub struct Frame {
    window: Window,
    cars: u64,
    floors: u64,
    lanes: u64,
}

impl Frame {
    /// The frame of these rounds, with a lane for each call that waits.
    pub fn new(sizes: Sizes, window: Window, lanes: u64) -> Frame {
        Frame {
            window,
            cars: u64::from(sizes.cars),
            floors: u64::from(sizes.floors),
            lanes,
        }
    }

    /// The rounds that are shown.
    pub fn window(self) -> Window {
        self.window
    }

    /// How many cars there are.
    pub fn cars(self) -> u64 {
        self.cars
    }

    /// How many floors there are.
    pub fn floors(self) -> u64 {
        self.floors
    }

    // The width of the bands.
    fn inner(self) -> u64
        ensures low { 568 ≤ result }
        ensures high { result ≤ 12000 }
    {
        let rounds = self.window.count;
        let wide = rounds.saturating_mul(ROUND).clamp(NARROW, WIDE);
        let legible = rounds.saturating_mul(NARROW_ROUND).min(WIDEST);
        wide.max(legible)
    }

    /// The width of the picture.
    pub fn width(self) -> u64
        ensures low { 640 ≤ result }
        ensures high { result ≤ 12100 }
    {
        LEFT + self.inner() + RIGHT
    }

    /// The right edge of the bands.
    pub fn right(self) -> u64 {
        LEFT + self.inner()
    }

    /// The left edge of a round; of the one after the last it is the right edge of the bands. It is never outside of them: that of an
    /// earlier round is the left edge, and that of a later one the right edge.
    pub fn x(self, round: u64) -> u64
        ensures low { 72 ≤ result }
        ensures high { result ≤ 12072 }
    {
        LEFT + self.share(round, self.inner())
    }

    // What lies before a round, of a length for all of them.
    fn share(self, round: u64, length: u64) -> u64
        ensures { result ≤ length }
    {
        let Window { first, count } = self.window;
        let past = round.saturating_sub(first).min(count);
        if count == 0 {
            return 0;
        }
        (length.saturating_mul(past) / count).min(length)
    }

    // From a floor to the next.
    fn storey(self) -> u64 {
        if self.floors > 6 { 12 } else { 20 }
    }

    // The height of a band.
    fn band(self) -> u64 {
        let shaft = self.floors.saturating_sub(1).saturating_mul(self.storey());
        shaft.saturating_add(ABOVE + BELOW)
    }

    // The height of the strip of waiting calls.
    fn strip(self) -> u64 {
        if self.lanes == 0 {
            return 0;
        }
        self.lanes.saturating_mul(LANE).saturating_add(LANE)
    }

    /// The upper edge of all that is drawn along the time.
    pub fn top(self) -> u64 {
        TOP
    }

    /// The upper edge of the band of a car.
    pub fn band_top(self, car: u64) -> u64 {
        let above = car.saturating_sub(1).saturating_mul(self.band());
        TOP.saturating_add(self.strip()).saturating_add(above)
    }

    /// The lower edge of the last band.
    pub fn bottom(self) -> u64 {
        self.band_top(self.cars.saturating_add(1))
    }

    /// The height of the picture.
    pub fn height(self) -> u64 {
        self.bottom().saturating_add(AXIS)
    }

    /// The height of a floor in the band of a car.
    pub fn y(self, car: u64, floor: u64) -> u64 {
        let below_top = self
            .floors
            .saturating_sub(floor)
            .saturating_mul(self.storey());
        self.band_top(car)
            .saturating_add(ABOVE)
            .saturating_add(below_top)
    }

    /// The left edge of a round, in tenths of a pixel.
    pub fn fine_x(self, round: u64) -> u64 {
        LEFT * 10 + self.share(round, self.inner() * 10)
    }

    /// The height of a waiting call, by its lane, from 0 on.
    pub fn lane(self, lane: u64) -> u64 {
        lane.saturating_add(1)
            .saturating_mul(LANE)
            .saturating_add(TOP)
    }
}
