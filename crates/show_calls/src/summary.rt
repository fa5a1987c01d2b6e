// What `calls --summary` prints.

ghost use Rattle.std.specs.Prelude.{◌≡◌, ◌++◌, ◌<◌, ◌≤◌, ◌*◌, ◌/◌, ℕ, OnOk, IfOk, count_by, length, sum, string_bytes, slice_index, IsPermutation, IsSorted, take, codes};
ghost use Rattle.std.specs.Ordering.{nat_cmp};
ghost use Rattle.base_texts.specs.Puts.{Puts};
ghost use Rattle.show_calls.specs.Summaries.{is_told, is_boarded, is_served, ended_elsewhere, is_elsewhere, is_open, count_text, begun_text, ended_text, counts_text, time_between, waiting_time, journey_time, waiting_times, journey_times, AreOrdered, ranked, mean_of, seconds_text, middle_text, greatest_text, figures_text, IsTimesText, IsSummaryOf};

use crate::journey::{Journey, Moment, Served};
use std::alloc::{AllocError, Global};

/// How many calls there were, and in seconds of NOW how long they waited and how long they took: mean, median, what 95 of 100 do not pass, and the
/// greatest, by the nearest rank.
pub fn summary_text(alloc: Global, pressed: u32, journeys: &[Journey]) -> Result<String, AllocError>
    ensures { IfOk result (λ text. IsSummaryOf pressed journeys.now (string_bytes text)) }
{
    let mut text = String::new(alloc);
    put_counts(&mut text, pressed, journeys)?;
    let mut waiting = waiting_times(alloc, journeys)?;
    put_times(&mut text, "waiting time", &mut waiting)?;
    let mut taken = journey_times(alloc, journeys)?;
    put_times(&mut text, "journey time", &mut taken)?;
    Ok(text)
}

fn put_counts(text: &mut String, pressed: u32, journeys: &[Journey]) -> Result<(), AllocError>
    ensures { OnOk result (Puts text.old text.new (counts_text pressed journeys.now)) }
{
    put_begun(text, pressed, journeys)?;
    put_ended(text, journeys)
}

#[tactic(auto, unfolding(crate::specs::Summaries::begun_text))]
fn put_begun(text: &mut String, pressed: u32, journeys: &[Journey]) -> Result<(), AllocError>
    ensures { OnOk result (Puts text.old text.new (begun_text pressed journeys.now)) }
{
    put_count(text, "pressed", pressed as usize)?;
    put_count(text, "entered", journeys.len())?;
    put_count(text, "told", told(journeys))?;
    put_count(text, "boarded", boarded(journeys))
}

#[tactic(auto, unfolding(crate::specs::Summaries::ended_text))]
fn put_ended(text: &mut String, journeys: &[Journey]) -> Result<(), AllocError>
    ensures { OnOk result (Puts text.old text.new (ended_text journeys.now)) }
{
    put_count(text, "served", served(journeys))?;
    put_count(text, "served elsewhere", elsewhere(journeys))?;
    put_count(text, "not served", open(journeys))
}

// A line of a name and a number.
#[tactic(auto, unfolding(crate::specs::Summaries::count_text))]
fn put_count(text: &mut String, name: &str, count: usize) -> Result<(), AllocError>
    ensures { OnOk result (Puts text.old text.new (count_text name.now count)) }
{
    writeln!(text, "{} {}", name, count)
}

fn told(journeys: &[Journey]) -> usize
    ensures { result ≡ count_by is_told journeys.now }
{
    journeys
        .iter()
        .filter(|journey| journey.told.is_some())
        .count()
}

fn boarded(journeys: &[Journey]) -> usize
    ensures { result ≡ count_by is_boarded journeys.now }
{
    journeys
        .iter()
        .filter(|journey| journey.boarded.is_some())
        .count()
}

fn served(journeys: &[Journey]) -> usize
    ensures { result ≡ count_by is_served journeys.now }
{
    journeys
        .iter()
        .filter(|journey| journey.served.is_some())
        .count()
}

fn elsewhere(journeys: &[Journey]) -> usize
    ensures { result ≡ count_by is_elsewhere journeys.now }
{
    journeys
        .iter()
        .filter(|journey| ended_elsewhere(journey.served))
        .count()
}

fn open(journeys: &[Journey]) -> usize
    ensures { result ≡ count_by is_open journeys.now }
{
    journeys
        .iter()
        .filter(|journey| journey.served.is_none())
        .count()
}

// Whether a served call's car was not at the destination with its door open.
fn ended_elsewhere(served: Option<Served>) -> bool
    ensures { result ≡ ended_elsewhere served }
{
    match served {
        Some(served) => !served.there,
        None => false,
    }
}

// From NOW of one moment to NOW of another.
fn time_between(one: Moment, other: Moment) -> u32
    ensures { result ≡ time_between one other }
{
    other.now.saturating_sub(one.now)
}

// From the entry to the boarding.
fn waiting_time(journey: Journey) -> Option<u32>
    ensures { result ≡ waiting_time journey }
{
    let boarded = journey.boarded?;
    Some(time_between(journey.entered, boarded))
}

// From the entry to the service.
fn journey_time(journey: Journey) -> Option<u32>
    ensures { result ≡ journey_time journey }
{
    let served = journey.served?;
    Some(time_between(journey.entered, served.at))
}

fn waiting_times(alloc: Global, journeys: &[Journey]) -> Result<Vec<u32>, AllocError>
    ensures { IfOk result (λ times. times.items ≡ waiting_times journeys.now) }
{
    journeys
        .iter()
        .filter_map(|journey| waiting_time(*journey))
        .collect(alloc)
}

fn journey_times(alloc: Global, journeys: &[Journey]) -> Result<Vec<u32>, AllocError>
    ensures { IfOk result (λ times. times.items ≡ journey_times journeys.now) }
{
    journeys
        .iter()
        .filter_map(|journey| journey_time(*journey))
        .collect(alloc)
}

// A line of a name and the figures of times, which are left in order.
fn put_times(text: &mut String, name: &str, times: &mut [u32]) -> Result<(), AllocError>
    ensures order { AreOrdered times.old times.new }
    ensures text { OnOk result (Puts text.old text.new (name.now ++ figures_text times.new)) }
{
    times.sort_unstable();
    text.push_str(name)?;
    put_figures(text, times)
}

fn put_figures(text: &mut String, times: &[u32]) -> Result<(), AllocError>
    ensures { OnOk result (Puts text.old text.new (figures_text times.now)) }
{
    if times.is_empty() {
        text.push_str(" none\n")
    } else {
        put_some_figures(text, times)
    }
}

fn put_some_figures(text: &mut String, times: &[u32]) -> Result<(), AllocError>
    requires { 0 < length times.now }
    ensures { OnOk result (Puts text.old text.new
        (middle_text times.now ++ greatest_text times.now)) }
{
    put_middle(text, times)?;
    put_greatest(text, times)
}

#[tactic(auto, unfolding(crate::specs::Summaries::middle_text))]
fn put_middle(text: &mut String, times: &[u32]) -> Result<(), AllocError>
    requires { 0 < length times.now }
    ensures { OnOk result (Puts text.old text.new (middle_text times.now)) }
{
    put_figure(text, " mean ", mean_of(times))?;
    put_figure(text, " median ", ranked(50, times))
}

#[tactic(auto, unfolding(crate::specs::Summaries::greatest_text))]
fn put_greatest(text: &mut String, times: &[u32]) -> Result<(), AllocError>
    requires { 0 < length times.now }
    ensures { OnOk result (Puts text.old text.new (greatest_text times.now)) }
{
    put_figure(text, " p95 ", ranked(95, times))?;
    put_figure(text, " greatest ", ranked(100, times))?;
    text.push_str("\n")
}

fn put_figure(text: &mut String, name: &str, time: u64) -> Result<(), AllocError>
    ensures { OnOk result (Puts text.old text.new (name.now ++ seconds_text time)) }
{
    text.push_str(name)?;
    put_seconds(text, time)
}

// Milliseconds as seconds with three decimals.
#[tactic(auto, unfolding(crate::specs::Summaries::seconds_text))]
fn put_seconds(text: &mut String, time: u64) -> Result<(), AllocError>
    ensures { OnOk result (Puts text.old text.new (seconds_text time)) }
{
    write!(text, "{}.{}", time / 1000, time / 100 % 10)?;
    write!(text, "{}{}", time / 10 % 10, time % 10)
}

// The sum, which has no bound but the room of the list.
fn sum_of(times: &[u32]) -> u128
    ensures sum { result ≡ sum times.now }
    ensures bound { result ≤ 4294967295 * length times.now }
{
    let mut sum: u128 = 0;
    'times: for time in times {
        sum += u128::from(*time);
    }
    sum
}

// The mean, down to a whole number.
fn mean_of(times: &[u32]) -> u64
    requires { 0 < length times.now }
    ensures { result ≡ mean_of times.now }
{
    (sum_of(times) / times.len() as u128) as u64
}

// The least of rising times that so many of 100 of them do not pass.
fn ranked(percent: u8, times: &[u32]) -> u64
    requires some { 0 < length times.now }
    requires percent { (1 ≤ percent) × (percent ≤ 100) }
    ensures { result ≡ ranked percent times.now }
{
    let rank = (u128::from(percent) * times.len() as u128 + 99) / 100;
    u64::from(times[rank as usize - 1])
}
