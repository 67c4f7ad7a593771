use crate::checking::same;
use fare_link::{AckAhead, Receiver, Sender, Verdict};

#[test]
fn sends_up_to_the_last_number(rt: HostRuntime) {
    let mut sender = Sender::new();
    let links = [
        sender.next_link(0),
        sender.next_link(2),
        sender.next_link(2),
        sender.next_link(2),
    ];
    same(&rt, &links, &[None, Some(1), Some(2), None]);
    sender.rewind();
    let again = sender.next_link(2);
    same(
        &rt,
        &(again, sender.base(), sender.cursor()),
        &(Some(1), 0, 1),
    );
}

#[test]
fn hears_acknowledgements(rt: HostRuntime) {
    let mut sender = Sender::new();
    let heard = [
        sender.acked(3, 2),
        sender.acked(2, 3),
        sender.acked(1, 3),
        sender.acked(3, 3),
    ];
    same(&rt, &heard, &[Err(AckAhead), Ok(2), Ok(0), Ok(1)]);
    same(&rt, &(sender.base(), sender.cursor()), &(3, 3));
}

#[test]
fn accepts_the_next_number_alone(rt: HostRuntime) {
    let mut receiver = Receiver::new();
    let first = [receiver.judge(2), receiver.judge(1)];
    receiver.advance();
    let second = receiver.judge(1);
    receiver.resume(4);
    let fifth = (receiver.next(), receiver.judge(5));
    same(&rt, &first, &[Verdict::Ahead, Verdict::Next]);
    same(&rt, &(second, fifth), &(Verdict::Old, (5, Verdict::Next)));
}
