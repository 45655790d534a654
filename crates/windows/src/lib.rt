// Planned work by the week: document 02, request U7. The refusal of windows of work and a minute, if there is one, and what is out at a
// minute. Windows are five words each: start, end, nodes, links 0 to 63, links 64 to 127.
// Assumes nothing.
#![tactic(auto)]

ghost use Rattle.std.specs.Prelude.{◌≡◌, not, ◌+◌, ◌*◌, ◌%◌, ◌≤◌, eqb, length};
ghost use Rattle.mass.specs.Refusal.{refuse, each, number_in};
ghost use Rattle.network.specs.Code.{outage};
ghost use Rattle.windows.specs.Windows.{holds, window_at, windows_of, with_window, taken_out};
ghost use Rattle.windows.specs.Windows.{window_test, minute_test, work_refusal};
ghost use Rattle.windows.specs.Code.{window};

use mass::Refusal;
use network::Failed;

// A window: its minutes from `start` up to, but not with, `end`, and what it takes out.
#[derive(Clone, Copy)]
struct Window {
    start: u64,
    end: u64,
    out: Failed,
}

// The window at a position of the words.
fn window_at(words: &[u64], at: usize) -> Window
    requires { at + 5 ≤ length words.now }
    ensures { window result ≡ window_at words.now at }
{
    Window {
        start: words[at],
        end: words[at + 1],
        out: Failed {
            nodes: words[at + 2],
            low: words[at + 3],
            high: words[at + 4],
        },
    }
}

impl Window {
    // 21: the window breaks its range, or names a node or link that is not there.
    fn test(self, nodes: u64, links: u64) -> Result<(), Refusal>
        requires { (nodes ≤ 64) × (links ≤ 128) }
        ensures { number_in result ≡ window_test nodes links (window self) }
    {
        let range = self.end <= self.start || 10_080 < self.end;
        let missing = refusals::reaches(nodes, self.out.nodes)
            || refusals::reaches_wide(links, self.out.low, self.out.high);
        Refusal::Window.when(range || missing)
    }

    // Whether the window holds a minute.
    fn holds(self, minute: u64) -> bool
        ensures { result ≡ holds (window self) minute }
    {
        self.start <= minute && minute < self.end
    }
}

// 22: the minute is above 10,079.
fn minute_test(minute: u64) -> Result<(), Refusal>
    ensures { number_in result ≡ minute_test minute }
{
    Refusal::Minute.when(10_079 < minute)
}

// 12: of so many words some are left over, which make no whole window.
fn tail_test(words: usize) -> Result<(), Refusal>
    ensures { number_in result ≡ refuse (not (eqb (words % 5) 0)) 12 }
{
    Refusal::Room.when(words % 5 != 0)
}

// Each window, 21.
fn window_list_refusal(words: &[u64], count: usize, nodes: u64, links: u64) -> Result<(), Refusal>
    requires { (5 * count ≤ length words.now) × ((nodes ≤ 64) × (links ≤ 128)) }
    ensures { number_in result ≡ each (window_test nodes links) (windows_of count words.now) }
{
    // The windows from i on are refused as all windows are: those before them pass.
    for i in 0..count {
        window_at(words, 5 * i).test(nodes, links)?;
    }
    Ok(())
}

// The refusal of windows and a minute, if there is one: 12 for words that make no whole window, each window 21, then 22.
#[tactic(auto, using(mass::proofs::RefusalLaws::refuses), unfolding(crate::specs::Windows::work_refusal))]
pub fn work_refusal(nodes: u64, links: u64, words: &[u64], minute: u64) -> Result<(), Refusal>
    requires { (nodes ≤ 64) × (links ≤ 128) }
    ensures { number_in result ≡ work_refusal nodes links words.now minute }
{
    tail_test(words.len())?;
    window_list_refusal(words, words.len() / 5, nodes, links)?;
    minute_test(minute)
}

// What is out with the window at a position, beside what is out already.
fn with_window(words: &[u64], at: usize, minute: u64, out: Failed) -> Failed
    requires { at + 5 ≤ length words.now }
    ensures { outage result ≡ with_window (window_at words.now at) minute (outage out) }
{
    let window = window_at(words, at);
    if window.holds(minute) {
        network::beside(out, window.out)
    } else {
        out
    }
}

// What is out at a minute: the union over all windows that hold it.
pub fn out_at(words: &[u64], minute: u64) -> Failed
    ensures { outage result ≡ taken_out words.now minute }
{
    let mut out = Failed::NONE;
    // `out` is what the windows after window i take out.
    for i in (0..words.len() / 5).rev() {
        out = with_window(words, 5 * i, minute, out);
    }
    out
}
