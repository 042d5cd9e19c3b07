//! The lines that the program's words may be.

ghost use Rattle.std.specs.Prelude.{◌≡◌, ◌↔◌, ℕ, Some, All, map, string_bytes, slice_get, codes, IsTrue, IfOk, MatchOption};
ghost use Rattle.command_line.specs.declared.line.Tunnels.{Tunnels as TheTunnels};
ghost use Rattle.command_line.specs.Words.{IsAccess, IsCheck, IsCollect, IsCount, IsGen, IsGrainLine, IsLine, IsNoLine, IsNumber, IsDecimalOf, IsOneOfLines, IsPath, IsPlay, IsPreview, IsServe, IsServeBoth};

use crate::command::is_taken;
use crate::number::{count_of, number_of, row_of};
use host_base::Memory;
use std::alloc::Global;

/// The tunnels that a longer line of `serve` has: their port, and how many.
#[derive(Clone, Copy, PartialEq, Eq)]
pub struct Tunnels {
    pub port: u16,
    pub count: u32,
}

/// The line that the program's words are. A path is the second word, and stays there.
#[derive(Clone, Copy, PartialEq, Eq)]
pub enum Line {
    /// `play`
    Play,
    /// `serve FILE PORT COUNT`, or with tunnels `serve FILE PORT COUNT WSPORT WSCOUNT`
    Serve {
        port: u16,
        count: u32,
        tunnels: Option<Tunnels>,
    },
    /// `gen COUNT SEED`
    Gen {
        count: u32,
        seed: u64,
    },
    /// `check FILE`
    Check,
    /// `grain SOCKET COUNT`
    Grain {
        count: u32,
    },
    /// `access FILE GRAIN`
    Access {
        grain: u32,
    },
    /// `preview FILE GRANT`
    Preview {
        grant: u32,
    },
    /// `collect FILE GRAIN GRANT`
    Collect {
        grain: u32,
        grant: u32,
    },
    /// None of the lines.
    Unknown,
}

// The most connections that `serve` takes, and the most tunnels.
const MOST_SERVED: u32 = 1_000_000;

// The most requests that `gen` makes.
const MOST_MADE: u32 = 100_000;

// The most connections that `grain` takes.
const MOST_ANSWERED: u32 = 1_000_000_000;

fn says(word: &str, text: &str) -> bool
    ensures { IsTrue result ↔ (word.now ≡ text.now) }
{
    word == text
}

fn is_path(word: &str) -> bool
    ensures { IsTrue result ↔ IsPath word.now }
{
    match word.as_bytes().first() {
        Some(byte) => *byte != b'-',
        None => true,
    }
}

// Whether each word may be a path, so that none is an option.
fn are_plain(words: &[String]) -> bool
    ensures { IsTrue result ↔ All (λ word. IsPath (string_bytes word)) words.now }
{
    words.iter().all(|word| is_path(word.as_str()))
}

fn port_of(word: &str) -> Option<u16>
    ensures { MatchOption result ((n : ℕ) → IsCount 65535 word.now n → ⊥) (IsCount 65535 word.now) }
{
    match count_of(word, 65_535) {
        Some(port) => Some(port as u16),
        None => None,
    }
}

// A port of `serve`, and how many come to it.
fn serve_numbers(port: &str, count: &str) -> Option<(u16, u32)>
    ensures { MatchOption result
        ((p n : ℕ) → IsCount 65535 port.now p → IsCount 1000000 count.now n → ⊥)
        (λ numbers. IsCount 65535 port.now numbers.0 × IsCount 1000000 count.now numbers.1) }
{
    match (port_of(port), count_of(count, MOST_SERVED)) {
        (Some(port), Some(count)) => Some((port, count)),
        _ => None,
    }
}

// The tunnels of the longer `serve`.
fn tunnels_of(port: &str, count: &str) -> Option<Tunnels>
    ensures { MatchOption result
        ((p n : ℕ) → IsCount 65535 port.now p → IsCount 1000000 count.now n → ⊥)
        (λ tunnels. IsCount 65535 port.now tunnels.port × IsCount 1000000 count.now tunnels.count) }
{
    match serve_numbers(port, count) {
        Some((port, count)) => Some(Tunnels { port, count }),
        None => None,
    }
}

// The numbers of `gen`.
fn gen_numbers(count: &str, seed: &str) -> Option<(u32, u64)>
    ensures { MatchOption result
        ((n s : ℕ) → IsCount 100000 count.now n → IsDecimalOf seed.now s → ⊥)
        (λ numbers. IsCount 100000 count.now numbers.0 × IsDecimalOf seed.now numbers.1) }
{
    match (count_of(count, MOST_MADE), number_of(seed)) {
        (Some(count), Some(seed)) => Some((count, seed)),
        _ => None,
    }
}

// The rows of `collect`: a grain and a grant.
fn collect_numbers(grain: &str, grant: &str) -> Option<(u32, u32)>
    ensures { MatchOption result
        ((n g : ℕ) → IsNumber grain.now n → IsNumber grant.now g → ⊥)
        (λ numbers. IsNumber grain.now numbers.0 × IsNumber grant.now numbers.1) }
{
    match (row_of(grain), row_of(grant)) {
        (Some(grain), Some(grant)) => Some((grain, grant)),
        _ => None,
    }
}

fn play_line(words: &[String]) -> Option<Line>
    ensures { MatchOption result (IsPlay words.now → ⊥) (IsLine words.now) }
{
    match words {
        [word] if says(word.as_str(), "play") => Some(Line::Play),
        _ => None,
    }
}

fn serve_line(words: &[String]) -> Option<Line>
    ensures { MatchOption result ((port count : ℕ) → IsServe words.now port count → ⊥) (IsLine words.now) }
{
    match words {
        [word, file, port, count] if says(word.as_str(), "serve") && is_path(file.as_str()) => {
            match serve_numbers(port.as_str(), count.as_str()) {
                Some((port, count)) => Some(Line::Serve {
                    port,
                    count,
                    tunnels: None,
                }),
                None => None,
            }
        }
        _ => None,
    }
}

fn serve_both_line(words: &[String]) -> Option<Line>
    ensures { MatchOption result
        ((port count : ℕ) (tunnels : TheTunnels) → IsServeBoth words.now port count tunnels → ⊥)
        (IsLine words.now) }
{
    match words {
        [word, file, port, count, ws_port, ws_count]
            if says(word.as_str(), "serve") && is_path(file.as_str()) => {
            match (
                serve_numbers(port.as_str(), count.as_str()),
                tunnels_of(ws_port.as_str(), ws_count.as_str()),
            ) {
                (Some((port, count)), Some(tunnels)) => Some(Line::Serve {
                    port,
                    count,
                    tunnels: Some(tunnels),
                }),
                _ => None,
            }
        }
        _ => None,
    }
}

fn gen_line(words: &[String]) -> Option<Line>
    ensures { MatchOption result ((count seed : ℕ) → IsGen words.now count seed → ⊥) (IsLine words.now) }
{
    match words {
        [word, count, seed] if says(word.as_str(), "gen") => {
            match gen_numbers(count.as_str(), seed.as_str()) {
                Some((count, seed)) => Some(Line::Gen { count, seed }),
                None => None,
            }
        }
        _ => None,
    }
}

fn check_line(words: &[String]) -> Option<Line>
    ensures { MatchOption result (IsCheck words.now → ⊥) (IsLine words.now) }
{
    match words {
        [word, file] if says(word.as_str(), "check") && is_path(file.as_str()) => Some(Line::Check),
        _ => None,
    }
}

fn grain_line(words: &[String]) -> Option<Line>
    ensures { MatchOption result ((count : ℕ) → IsGrainLine words.now count → ⊥) (IsLine words.now) }
{
    match words {
        [word, socket, count] if says(word.as_str(), "grain") && is_path(socket.as_str()) => {
            match count_of(count.as_str(), MOST_ANSWERED) {
                Some(count) => Some(Line::Grain { count }),
                None => None,
            }
        }
        _ => None,
    }
}

fn access_line(words: &[String]) -> Option<Line>
    ensures { MatchOption result ((grain : ℕ) → IsAccess words.now grain → ⊥) (IsLine words.now) }
{
    match words {
        [word, file, grain] if says(word.as_str(), "access") && is_path(file.as_str()) => {
            match row_of(grain.as_str()) {
                Some(grain) => Some(Line::Access { grain }),
                None => None,
            }
        }
        _ => None,
    }
}

fn preview_line(words: &[String]) -> Option<Line>
    ensures { MatchOption result ((grant : ℕ) → IsPreview words.now grant → ⊥) (IsLine words.now) }
{
    match words {
        [word, file, grant] if says(word.as_str(), "preview") && is_path(file.as_str()) => {
            match row_of(grant.as_str()) {
                Some(grant) => Some(Line::Preview { grant }),
                None => None,
            }
        }
        _ => None,
    }
}

fn collect_line(words: &[String]) -> Option<Line>
    ensures { MatchOption result ((grain grant : ℕ) → IsCollect words.now grain grant → ⊥) (IsLine words.now) }
{
    match words {
        [word, file, grain, grant] if says(word.as_str(), "collect") && is_path(file.as_str()) => {
            match collect_numbers(grain.as_str(), grant.as_str()) {
                Some((grain, grant)) => Some(Line::Collect { grain, grant }),
                None => None,
            }
        }
        _ => None,
    }
}

// The line that words are, by the words themselves.
fn read_line(words: &[String]) -> Line
    ensures { IsLine words.now result }
{
    if let Some(line) = play_line(words) {
        return line;
    }
    if let Some(line) = serve_line(words) {
        return line;
    }
    if let Some(line) = serve_both_line(words) {
        return line;
    }
    if let Some(line) = gen_line(words) {
        return line;
    }
    if let Some(line) = check_line(words) {
        return line;
    }
    if let Some(line) = grain_line(words) {
        return line;
    }
    if let Some(line) = access_line(words) {
        return line;
    }
    if let Some(line) = preview_line(words) {
        return line;
    }
    match collect_line(words) {
        Some(line) => line,
        None => Line::Unknown,
    }
}

/// The line that words are. A word that begins with `-` fits nowhere, and is refused before `clap` reads the words: it would take
/// the word for an option.
pub fn line_of(alloc: Global, words: &[String]) -> Result<Line, Memory>
    ensures line { IfOk result (IsLine words.now) }

    // The words are one line at most.
    ensures one { IsOneOfLines words.now }
{
    if !are_plain(words) {
        return Ok(Line::Unknown);
    }
    if !is_taken(alloc, words)? {
        return Ok(Line::Unknown);
    }
    Ok(read_line(words))
}
