use sr_ask::{Answer, Entry, Request, Seen};
use sr_value::{Row, Sel, Value};

/// About how many bytes one value takes, without what it points to.
const VALUE: u64 = 64;

/// About how many bytes an entry takes, without its lists and texts.
const ENTRY: u64 = 512;

/// About how many bytes an entry holds. It is a measure of memory alone, so no contract says more of it.
pub(crate) fn weight_of(entry: &Entry) -> u64 {
    let mut weight = ENTRY;
    weigh_request(&entry.ask.request, &mut weight);
    weigh_answer(&entry.answer, &mut weight);
    for seen in entry.reads.as_slice() {
        weigh_seen(seen, &mut weight);
    }
    weight
}

fn add(weight: &mut u64, bytes: u64) {
    *weight = weight.saturating_add(bytes);
}

fn weigh_request(request: &Request, weight: &mut u64) {
    match request {
        Request::Load { path, .. } => weigh_path(path, weight),
        Request::Store { path, value, .. } => {
            weigh_path(path, weight);
            weigh_value(value, weight);
        }
        Request::Invoke { args, .. } => weigh_values(args.as_slice(), weight),
        Request::Forward { args, .. } => weigh_values(args.as_slice(), weight),
        Request::Create { args, .. } => weigh_values(args.as_slice(), weight),
        Request::Select { env, .. } => weigh_values(env.as_slice(), weight),
        Request::Reply { results, .. } => weigh_values(results.as_slice(), weight),
        Request::Finish { results, .. } => weigh_values(results.as_slice(), weight),
        Request::Take { ids } => add(weight, ids.len() as u64),
        Request::Write { bytes } => add(weight, bytes.len() as u64),
        _ => {}
    }
}

fn weigh_answer(answer: &Answer, weight: &mut u64) {
    match answer {
        Answer::Got(value) => weigh_value(value, weight),
        Answer::Picked { args, .. } => weigh_values(args.as_slice(), weight),
        Answer::Took {
            results: Some(results),
            ..
        } => weigh_values(results.as_slice(), weight),
        _ => {}
    }
}

fn weigh_seen(seen: &Seen, weight: &mut u64) {
    match seen {
        Seen::Cell { path, value, .. } => {
            weigh_path(path, weight);
            weigh_value(value, weight);
        }
        Seen::Pending { .. } => {}
    }
}

fn weigh_path(path: &Row<Sel>, weight: &mut u64) {
    add(weight, path.len() as u64);
}

#[cycle(weigh_values)]
fn weigh_value(value: &Value, weight: &mut u64) {
    match value {
        Value::Str(text) => add(weight, text.len() as u64),
        Value::Rec(fields) => weigh_values(fields.as_slice(), weight),
        Value::Arr { items, .. } => weigh_values(items.as_slice(), weight),
        _ => {}
    }
}

#[cycle(weigh_values)]
fn weigh_values(values: &[Value], weight: &mut u64) {
    for value in values {
        add(weight, VALUE);
        weigh_value(value, weight);
    }
}
