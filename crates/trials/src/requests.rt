// Requests, with silent vertices or without.
use judging::Request;
use sets::Set;

// Slack k, floor q, and the vertices of the mask are silent.
pub fn ask_silent(k: usize, q: usize, mask: u64) -> Request {
    Request {
        slack: k,
        floor: q,
        silent: Set::from(mask),
    }
}

// The same where no vertex is silent.
pub fn ask(k: usize, q: usize) -> Request {
    ask_silent(k, q, 0)
}
