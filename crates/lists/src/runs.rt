// Rows of calls: a call as a value, made on any list, and many of them in order.
ghost use Rattle.std.specs.Prelude.{◌≡◌, min, length, take, drop};
ghost use Rattle.lists.specs.Runs.{Answers, Runs, Decided};

use crate::keys::Key;
use crate::waiting::{BeyondCapacity, WaitingList};

// A call of a waiting list: `clear`, `put` or `take`. It is a value, and no closure, since the laws speak of lists of calls.
#[derive(Clone, Copy, Debug, PartialEq, Eq)]
pub enum Request<K> {
    Empty,
    Put { number: usize, key: K },
    Take,
}

// What a call answers.
#[derive(Clone, Copy, Debug, PartialEq, Eq)]
pub enum Answer {
    Emptied,
    Placed(Result<(), BeyondCapacity>),
    Taken(Option<usize>),
}

// Makes the call.
pub fn serve<K: Key, L: WaitingList<K>>(list: &mut L, request: Request<K>) -> Answer
    ensures capacity { L.WaitingList.capacity list.new ≡ L.WaitingList.capacity list.old }
    ensures answer { Answers K.Key.sooner (L.WaitingList.capacity list.old) (L.WaitingList.holds list.old) request result (L.WaitingList.holds list.new) }
{
    match request {
        Request::Empty => {
            list.clear();
            Answer::Emptied
        }
        Request::Put { number, key } => Answer::Placed(list.put(number, key)),
        Request::Take => Answer::Taken(list.take()),
    }
}

// Makes the calls in order, as many as there are answers lent, and says how many it made. Answers are lent, since no list allocates.
pub fn serve_all<K: Key, L: WaitingList<K>>(
    list: &mut L,
    requests: &[Request<K>],
    answers: &mut [Answer],
) -> usize
    ensures count { result ≡ min (length requests.now) (length answers.old) }
    ensures capacity { L.WaitingList.capacity list.new ≡ L.WaitingList.capacity list.old }
    ensures answers { Runs K.Key.sooner (L.WaitingList.capacity list.old) (L.WaitingList.holds list.old) (take result requests.now) (take result answers.new) (L.WaitingList.holds list.new) }
    ensures rest { drop result answers.new ≡ drop result answers.old }
    ensures decided { Decided K.Key.sooner (L.WaitingList.capacity list.old) (L.WaitingList.holds list.old) (take result requests.now) (take result answers.new) (L.WaitingList.holds list.new) }
{
    let count = requests.len().min(answers.len());
    // An answer is written by its number: of elements that a loop over `iter_mut` wrote, a proof knows nothing.
    for (at, request) in requests[..count].iter().enumerate() {
        answers[at] = serve(list, *request);
    }
    count
}
