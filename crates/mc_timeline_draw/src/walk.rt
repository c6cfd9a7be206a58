//! Which notes of a timeline are of requests on a key.

use mc_model::Note;
use mc_protocol::Bytes;

/// Goes along the notes of a timeline, and numbers the requests on a key.
#[derive(Drop)]
pub struct Walk<'a> {
    key: Option<&'a Bytes>,
    /// How many requests on the key began.
    pub count: usize,
    // for each client the number of its last request, if it was on the key
    asked: [Option<usize>; 256],
}

impl<'a> Walk<'a> {
    /// A walk that has no note behind it. Without a key no request is numbered.
    pub fn new(key: Option<&'a Bytes>) -> Walk<'a> {
        Walk {
            key,
            count: 0,
            asked: [None; 256],
        }
    }

    /// Takes the next note, and answers the number, counted from 0, of the request on the key that it is of.
    pub fn take(&mut self, client: u8, note: &Note) -> Option<usize> {
        match note {
            Note::Begin(request) => {
                let number = if self.is_on(&request.key) {
                    Some(self.count)
                } else {
                    None
                };
                if number.is_some() {
                    self.count = self.count.saturating_add(1);
                }
                self.asked[client as usize] = number;
                number
            }
            Note::Reply(_) => self.asked[client as usize],
        }
    }

    fn is_on(&self, key: &Bytes) -> bool {
        match self.key {
            Some(wanted) => wanted == key,
            None => false,
        }
    }
}
