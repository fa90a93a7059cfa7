// The submission window of a plain script.
ghost use Rattle.std.specs.Prelude.{◌≡◌, ◌<◌, ◌≤◌, ◌++◌, ◌∷◌, [], ℕ, Bool, List, IfOk, OnOk, length, map, filter};
ghost use Rattle.std.specs.List.{All};
ghost use Rattle.dn_bits.specs.Bits.{below};
ghost use Rattle.dn_told.specs.Window as event;
ghost use Rattle.dn_window.specs.Window.{IsAfter, clients_of};
ghost use Rattle.dn_window.specs.Closing.{with_close};
ghost use Rattle.dn_script.specs.Plain.{Fits, IsScript};
ghost use Rattle.dn_cmd.specs.Window as spec;

use dn_memory::NoMemory;
use dn_script::{PlainLine, PlainScript};
use dn_window::{Window, WindowTold};
use dn_wire::ClientId;
use std::alloc::Global;

/// Whether a line is one of a window.
fn is_window_line(line: &PlainLine) -> bool
    ensures { result ≡ spec.is_window_line line.now }
{
    match line {
        PlainLine::Say { .. } => false,
        PlainLine::Submit(_) | PlainLine::Tick(_) | PlainLine::Close => true,
    }
}

/// Whether a script has a window.
fn has_window(lines: &[PlainLine]) -> bool
    ensures { result ≡ spec.has_window lines.now }
{
    for line in lines {
        if is_window_line(line) {
            return true;
        }
    }
    false
}

fn told_word(told: WindowTold) -> &'static str
    ensures { result.now ≡ spec.told_word told }
{
    match told {
        WindowTold::Included => "included",
        WindowTold::Late => "late",
        WindowTold::Repeat => "repeat",
    }
}

/// Appends the line that tells a client its answer.
fn push_told(
    alloc: Global,
    text: &mut Vec<u8>,
    client: ClientId,
    told: WindowTold,
) -> Result<(), NoMemory>
    ensures { OnOk result (text.new.items ≡ text.old.items ++ spec.told_line client.0 told) }
{
    let number = client.0;
    let word = told_word(told);
    let line = format!(in alloc; "told {number} {word}\n")?;
    text.extend_from_slice(line.as_bytes())?;
    Ok(())
}

/// Appends the line of a window that is closed.
fn push_closed(alloc: Global, text: &mut Vec<u8>, window: &Window) -> Result<(), NoMemory>
    ensures { OnOk result (text.new.items
        ≡ text.old.items ++ spec.closed_text window.now.ticks window.now.count) }
{
    let ticks = window.ticks();
    let count = window.count();
    let line = format!(in alloc; "closed {ticks} {count}\n")?;
    text.extend_from_slice(line.as_bytes())?;
    Ok(())
}

/// Marks a client that is told Included.
fn mark(told: WindowTold, marks: &mut [bool], client: usize)
    requires { client < length marks.old }
    ensures { marks.new ≡ spec.marked_by told client marks.old }
{
    match told {
        WindowTold::Included => marks[client] = true,
        WindowTold::Late | WindowTold::Repeat => {}
    }
}

/// A client submits.
fn submit(
    alloc: Global,
    window: &mut Window,
    marks: &mut [bool],
    text: &mut Vec<u8>,
    client: ClientId,
) -> Result<(), NoMemory>
    requires within { client.0 < clients_of window.old }
    requires marks { length marks.old ≡ clients_of window.old }
    ensures at { (n : ℕ) (past : List event.WindowEvent) → spec.IsAt n window.old marks.old past
        → spec.IsAt n window.new marks.new (past ++ event.Submit client.0 ∷ []) }
    ensures text { (past : List event.WindowEvent) → IsAfter window.old past
        → OnOk result (text.new.items
        ≡ text.old.items ++ spec.told_line client.0 (event.told_after [] past client.0)) }
{
    let told = window.submit(client);
    mark(told, marks, client.0 as usize);
    push_told(alloc, text, client, told)
}

/// So many ticks pass.
fn pass(window: &mut Window, count: u32)
    ensures after { (past : List event.WindowEvent) → IsAfter window.old past
        → IsAfter window.new (spec.with_ticks window.old.expected count past) }
    ensures clients { clients_of window.new ≡ clients_of window.old }
    ensures expected { window.new.expected ≡ window.old.expected }
{
    for tick in 0..count {
        let _ = window.tick();
    }
}

/// So many ticks pass, and where the window is closed by one of them, that is told.
fn tick(alloc: Global, window: &mut Window, text: &mut Vec<u8>, count: u32) -> Result<(), NoMemory>
    ensures after { (past : List event.WindowEvent) → IsAfter window.old past
        → IsAfter window.new (spec.with_ticks window.old.expected count past) }
    ensures clients { clients_of window.new ≡ clients_of window.old }
    ensures expected { window.new.expected ≡ window.old.expected }
    ensures text { (past : List event.WindowEvent) → IsAfter window.old past
        → OnOk result (text.new.items ≡ text.old.items ++ spec.ticks_text window.old.expected count past) }
{
    if window.is_closed() {
        return Ok(());
    }
    pass(window, count);
    if !window.is_closed() {
        return Ok(());
    }
    push_closed(alloc, text, window)
}

/// The window is closed by a line, which tells whether it was open.
fn close(alloc: Global, window: &mut Window, text: &mut Vec<u8>) -> Result<(), NoMemory>
    ensures after { (past : List event.WindowEvent) → IsAfter window.old past → IsAfter window.new (with_close past) }
    ensures clients { clients_of window.new ≡ clients_of window.old }
    ensures expected { window.new.expected ≡ window.old.expected }
    ensures text { (past : List event.WindowEvent) → IsAfter window.old past
        → OnOk result (text.new.items ≡ text.old.items ++ spec.close_text past) }
{
    if window.close() {
        return push_closed(alloc, text, window);
    }
    text.extend_from_slice(b"ignored shut\n")?;
    Ok(())
}

/// The last line closes a window that is still open.
fn finish(alloc: Global, window: &mut Window, text: &mut Vec<u8>) -> Result<(), NoMemory>
    ensures { (past : List event.WindowEvent) → IsAfter window.old past
        → OnOk result (text.new.items ≡ text.old.items ++ spec.end_text past) }
{
    if window.close() {
        return push_closed(alloc, text, window);
    }
    Ok(())
}

/// Meets a line of the script.
fn meet(
    alloc: Global,
    window: &mut Window,
    marks: &mut [bool],
    text: &mut Vec<u8>,
    line: &PlainLine,
) -> Result<(), NoMemory>
    requires within { spec.IsWithin (clients_of window.old) line.now }
    requires marks { length marks.old ≡ clients_of window.old }
    ensures at { (n : ℕ) (past : List event.WindowEvent) → spec.IsAt n window.old marks.old past
        → spec.IsAt n window.new marks.new (spec.with_line n line.now past) }
    ensures text { (n : ℕ) (past : List event.WindowEvent) → spec.IsAt n window.old marks.old past
        → OnOk result (text.new.items ≡ text.old.items ++ spec.answer_to n line.now past) }
{
    match line {
        PlainLine::Say { .. } => Ok(()),
        PlainLine::Submit(client) => submit(alloc, window, marks, text, *client),
        PlainLine::Tick(count) => tick(alloc, window, text, *count),
        PlainLine::Close => close(alloc, window, text),
    }
}

/// Meets all lines, and closes a window that is still open. Gives the marks of the clients that the
/// window told Included.
fn meet_all(
    alloc: Global,
    clients: u32,
    lines: &[PlainLine],
    text: &mut Vec<u8>,
) -> Result<Vec<bool>, NoMemory>
    requires { All (spec.IsWithin clients) lines.now }
    ensures marks { IfOk result (λ v. v.items
        ≡ map (spec.is_included (spec.with_lines clients lines.now [])) (below clients)) }
    ensures text { OnOk result (text.new.items ≡ text.old.items ++ spec.lines_text clients lines.now []) }
{
    let mut window = Window::start(alloc, clients, clients)?;
    let mut marks = vec![in alloc; false; clients as usize]?;
    for line in lines {
        meet(alloc, &mut window, &mut marks, text, line)?;
    }
    finish(alloc, &mut window, text)?;
    Ok(marks)
}

/// The numbers below this one.
fn all_below(alloc: Global, clients: u32) -> Result<Vec<u32>, NoMemory>
    ensures { IfOk result (λ v. v.items ≡ below clients) }
{
    let mut all = Vec::new(alloc);
    for client in 0..clients {
        all.push(client)?;
    }
    Ok(all)
}

/// The numbers of the marks that are set.
fn all_marked(alloc: Global, clients: u32, marks: &[bool]) -> Result<Vec<u32>, NoMemory>
    requires { length marks.now ≡ clients }
    ensures { IfOk result (λ v. (f : ℕ → Bool) → marks.now ≡ map f (below clients)
        → v.items ≡ filter f (below clients)) }
{
    let mut marked = Vec::new(alloc);
    for client in 0..clients {
        if marks[client as usize] {
            marked.push(client)?;
        }
    }
    Ok(marked)
}

/// The clients that count, in order: those told Included where the script has a window, else all.
/// What the window tells is appended to the text.
pub fn counted(
    alloc: Global,
    script: &PlainScript,
    text: &mut Vec<u8>,
) -> Result<Vec<u32>, NoMemory>
    requires { IsScript script.now }
    ensures counted { IfOk result (λ v. v.items ≡ spec.counted script.now) }
    ensures text { OnOk result (text.new.items ≡ text.old.items ++ spec.window_text script.now) }
{
    let clients = script.clients();
    let lines = script.lines();
    if !has_window(lines) {
        return all_below(alloc, clients);
    }
    let marks = meet_all(alloc, clients, lines, text)?;
    all_marked(alloc, clients, &marks)
}
