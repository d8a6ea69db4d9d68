use crate::call::Call;
use crate::groups::Groups;
use crate::held_gate::Hold;

/// What the words of the program ask for.
#[derive(Clone, Copy)]
pub(crate) enum Form<'a> {
    /// `call PIECE ROOM FAILING NUMBER TAKEN PORT.. -- WORD..`: a call of the tool over ports in memory that tell each call.
    Call(Call<'a>),
    /// `code SOURCE BOX`: the code of a box.
    Code {
        source: &'a str,
        name: &'a str,
    },
    /// `net SOURCE STEPS`: supersteps of the plain net.
    Net {
        source: &'a str,
        steps: u32,
    },
    /// `held FIRST SECOND SOURCE WORD..`: a call of the tool over its source and `std_out`, whose gate holds boxes.
    HeldCall {
        hold: Hold,
        source: &'a str,
        words: &'a [String],
    },
    /// `round FIRST SECOND SOURCE STEPS WORKERS [GROUPS SEED]`: a round of an engine by itself, whose gate holds boxes; by so many groups
    /// of nodes that are chosen at random, if the last two are there.
    HeldRound {
        hold: Hold,
        source: &'a str,
        steps: u32,
        workers: u32,
        groups: Option<Groups>,
    },
    /// `groups SOURCE WORKERS`: how many groups the engine makes for so many workers, and how many wires lead from one into another.
    Groups {
        source: &'a str,
        workers: u32,
    },
    /// `claims`: claims of a node and its wire.
    Claims,
    /// `text`: a small C file.
    Text,
}

/// The form that the words have, if they have one.
pub(crate) fn read_form(words: &[String]) -> Option<Form<'_>> {
    let [form, more @ ..] = words else {
        return None;
    };
    match form.as_str() {
        "call" => Some(Form::Call(read_call(more)?)),
        "code" => read_code(more),
        "net" => read_net(more),
        "held" => read_held_call(more),
        "round" => read_held_round(more),
        "groups" => read_groups_of(more),
        "claims" if more.is_empty() => Some(Form::Claims),
        "text" if more.is_empty() => Some(Form::Text),
        _ => None,
    }
}

fn read_code(words: &[String]) -> Option<Form<'_>> {
    let [source, name] = words else {
        return None;
    };
    Some(Form::Code {
        source: source.as_str(),
        name: name.as_str(),
    })
}

fn read_net(words: &[String]) -> Option<Form<'_>> {
    let [source, steps] = words else {
        return None;
    };
    Some(Form::Net {
        source: source.as_str(),
        steps: number(steps)?,
    })
}

fn read_held_call(words: &[String]) -> Option<Form<'_>> {
    let [first, second, source, words @ ..] = words else {
        return None;
    };
    Some(Form::HeldCall {
        hold: read_hold(first, second)?,
        source: source.as_str(),
        words,
    })
}

fn read_held_round(words: &[String]) -> Option<Form<'_>> {
    let [first, second, source, steps, workers, groups @ ..] = words else {
        return None;
    };
    Some(Form::HeldRound {
        hold: read_hold(first, second)?,
        source: source.as_str(),
        steps: number(steps)?,
        workers: number(workers)?,
        groups: read_groups(groups)?,
    })
}

// The outer one is none where the words are wrong, and the inner one where there are none.
fn read_groups(words: &[String]) -> Option<Option<Groups>> {
    match words {
        [] => Some(None),
        [count, seed] => Some(Some(Groups {
            count: number(count)?,
            seed: number(seed)?,
        })),
        _ => None,
    }
}

fn read_groups_of(words: &[String]) -> Option<Form<'_>> {
    let [source, workers] = words else {
        return None;
    };
    Some(Form::Groups {
        source: source.as_str(),
        workers: number(workers)?,
    })
}

fn read_hold(first: &str, second: &str) -> Option<Hold> {
    Some(Hold {
        first: number(first)?,
        second: number(second)?,
    })
}

fn read_call(words: &[String]) -> Option<Call<'_>> {
    let [piece, room, failing, call, taken, more @ ..] = words else {
        return None;
    };
    let piece = number(piece)?;
    let parting = more.iter().position(|word| word.as_str() == "--")?;
    if piece == 0 {
        return None;
    }
    Some(Call {
        piece,
        room: number(room)?,
        failing: failing.as_str(),
        number: number(call)?,
        taken: number(taken)?,
        names: &more[..parting],
        words: &more[parting + 1..],
    })
}

fn number(word: &str) -> Option<u32> {
    word.parse::<u32>().ok()
}
