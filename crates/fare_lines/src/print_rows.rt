ghost use Rattle.std.specs.Prelude.{◌≡◌, [], ◌∷◌, ◌++◌, OnOk, OnErr, codes, length, take};
ghost use Rattle.std.specs.Fmt.{decimal};
ghost use Rattle.fare_event.specs.declared.reply.Reply.TheVariants as reply;
ghost use Rattle.fare_lines.specs.Replies.{account_words, operator_text, operators_text, reply_text, route_words, routes_text, rows_text, short_words, words_line};

use crate::print::{append_line, put_named, put_number, put_number_line, put_share_line};
use fare_cap::{Bill, Row};
use fare_event::Short;
use fare_record::{Day, DeviceId, OwnerId};
use fare_settle::{RouteShare, Settled, Settlement};
use itoa::Buffer;
use std::alloc::AllocError;

/// Appends an account's row of a bill. After an error some of it may stand there.
fn put_account(row: &Row, out: &mut Vec<u8>) -> Result<(), AllocError>
    ensures appended { OnOk result (out.new.items ≡ out.old.items ++ words_line (account_words row.now)) }
    ensures front { take (length out.old.items) out.new.items ≡ out.old.items }
{
    put_named(b"account", u64::from(row.account.product().get()), out)?;
    put_number(row.account.token().get(), out)?;
    put_number(row.rides, out)?;
    put_number(row.amount.get(), out)?;
    out.push(b'\n')?;
    Ok(())
}

/// Appends a route's row of a settlement. After an error some of it may stand there.
fn put_route(share: &RouteShare, out: &mut Vec<u8>) -> Result<(), AllocError>
    ensures appended { OnOk result (out.new.items ≡ out.old.items ++ words_line (route_words share.now)) }
    ensures front { take (length out.old.items) out.new.items ≡ out.old.items }
{
    put_share_line(b"route", share.route, share.taps, share.amount, out)
}

/// Appends the rows of an operator's routes, but for that of the taps whose route is not known. After an error some of
/// them may stand there.
fn append_routes(shares: &[RouteShare], out: &mut Vec<u8>) -> Result<(), AllocError>
    ensures appended { OnOk result (out.new.items ≡ out.old.items ++ routes_text shares.now) }
    ensures front { take (length out.old.items) out.new.items ≡ out.old.items }
{
    for share in shares {
        if share.route != 0 {
            put_route(share, out)?;
        }
    }
    Ok(())
}

/// Appends an operator's row of a settlement, and those of its routes. After an error some of them may stand there.
fn append_operator(share: &Settled, out: &mut Vec<u8>) -> Result<(), AllocError>
    ensures appended { OnOk result (out.new.items ≡ out.old.items ++ operator_text share.now) }
    ensures front { take (length out.old.items) out.new.items ≡ out.old.items }
{
    let operator = share.operator().get();
    put_share_line(b"operator", operator, share.taps(), share.amount(), out)?;
    append_routes(share.routes(), out)
}

/// Appends the accounts' rows. After an error some of them may stand there.
fn append_accounts(rows: &[Row], out: &mut Vec<u8>) -> Result<(), AllocError>
    ensures appended { OnOk result (out.new.items ≡ out.old.items ++ rows_text account_words rows.now) }
    ensures front { take (length out.old.items) out.new.items ≡ out.old.items }
{
    for row in rows {
        put_account(row, out)?;
    }
    Ok(())
}

/// Appends the operators' rows, each with those of its routes. After an error some of them may stand there.
fn append_operators(shares: &[Settled], out: &mut Vec<u8>) -> Result<(), AllocError>
    ensures appended { OnOk result (out.new.items ≡ out.old.items ++ operators_text shares.now) }
    ensures front { take (length out.old.items) out.new.items ≡ out.old.items }
{
    for share in shares {
        append_operator(share, out)?;
    }
    Ok(())
}

/// Appends a device of which a bill or a settlement is short. After an error some of it may stand there.
fn put_short(device: DeviceId, out: &mut Vec<u8>) -> Result<(), AllocError>
    ensures appended { OnOk result (out.new.items ≡ out.old.items ++ words_line (short_words device)) }
    ensures front { take (length out.old.items) out.new.items ≡ out.old.items }
{
    put_number_line(b"short", u64::from(device.get()), out)
}

/// Appends the devices of which a bill or a settlement is short. After an error some of them may stand there.
fn append_short(devices: &[DeviceId], out: &mut Vec<u8>) -> Result<(), AllocError>
    ensures appended { OnOk result (out.new.items ≡ out.old.items ++ rows_text short_words devices.now) }
    ensures front { take (length out.old.items) out.new.items ≡ out.old.items }
{
    for device in devices {
        put_short(*device, out)?;
    }
    Ok(())
}

/// Appends the first line of a bill.
fn append_bill_line(
    owner: OwnerId,
    day: Day,
    bill: &Bill,
    out: &mut Vec<u8>,
) -> Result<(), AllocError>
    ensures appended { OnOk result (out.new.items ≡ out.old.items ++ words_line (codes "bill" ∷ decimal owner ∷ decimal day ∷ decimal (length bill.now.rows) ∷ decimal bill.now.total ∷ [])) }
    ensures kept { OnErr result (out.new.items ≡ out.old.items) }
{
    let mut one = Buffer::new();
    let mut two = Buffer::new();
    let mut three = Buffer::new();
    let mut four = Buffer::new();
    let owner = one.format(owner.get()).as_bytes();
    let day = two.format(day.get()).as_bytes();
    let rows = three.format(bill.rows().len()).as_bytes();
    let total = four.format(bill.total()).as_bytes();
    append_line(b"bill", &[owner, day, rows, total], out)
}

/// Appends the first line of a settlement.
fn append_settlement_line(
    owner: OwnerId,
    day: Day,
    settlement: &Settlement,
    out: &mut Vec<u8>,
) -> Result<(), AllocError>
    ensures appended { OnOk result (out.new.items ≡ out.old.items ++ words_line (codes "settlement" ∷ decimal owner ∷ decimal day ∷ decimal (length settlement.now) ∷ [])) }
    ensures kept { OnErr result (out.new.items ≡ out.old.items) }
{
    let mut one = Buffer::new();
    let mut two = Buffer::new();
    let mut three = Buffer::new();
    let owner = one.format(owner.get()).as_bytes();
    let day = two.format(day.get()).as_bytes();
    let operators = three.format(settlement.shares().len()).as_bytes();
    append_line(b"settlement", &[owner, day, operators], out)
}

/// Appends what stands below the first line of a bill: a line for each account, and one for each device of which the
/// bill is short. After an error some of it may stand there.
fn append_bill_rows(bill: &Bill, short: &Short, out: &mut Vec<u8>) -> Result<(), AllocError>
    ensures appended { OnOk result (out.new.items ≡ out.old.items ++ rows_text account_words bill.now.rows ++ rows_text short_words short.now) }
    ensures front { take (length out.old.items) out.new.items ≡ out.old.items }
{
    append_accounts(bill.rows(), out)?;
    append_short(short.devices(), out)
}

/// Appends what stands below the first line of a settlement: a line for each operator and each of its
/// routes, and one for each device of which the settlement is short. After an error some of it may stand there.
fn append_settlement_rows(
    settlement: &Settlement,
    short: &Short,
    out: &mut Vec<u8>,
) -> Result<(), AllocError>
    ensures appended { OnOk result (out.new.items ≡ out.old.items ++ operators_text settlement.now ++ rows_text short_words short.now) }
    ensures front { take (length out.old.items) out.new.items ≡ out.old.items }
{
    append_operators(settlement.shares(), out)?;
    append_short(short.devices(), out)
}

/// Appends a bill: a line, a line for each account, and one for each device of which it is short. After an error `out`
/// is as before.
pub fn append_bill(
    owner: OwnerId,
    day: Day,
    bill: &Bill,
    short: &Short,
    out: &mut Vec<u8>,
) -> Result<(), AllocError>
    ensures appended { OnOk result (out.new.items ≡ out.old.items ++ reply_text (reply.Bill owner day bill.now short.now)) }
    ensures kept { OnErr result (out.new.items ≡ out.old.items) }
{
    let length = out.len();
    append_bill_line(owner, day, bill, out)?;
    let appended = append_bill_rows(bill, short, out);
    if appended.is_err() {
        out.truncate(length);
    }
    appended
}

/// Appends a settlement: a line, a line for each operator and each of its routes that is known, and one for each device
/// of which it is short. After an error `out` is as before.
pub fn append_settlement(
    owner: OwnerId,
    day: Day,
    settlement: &Settlement,
    short: &Short,
    out: &mut Vec<u8>,
) -> Result<(), AllocError>
    ensures appended { OnOk result (out.new.items ≡ out.old.items ++ reply_text (reply.Settlement owner day settlement.now short.now)) }
    ensures kept { OnErr result (out.new.items ≡ out.old.items) }
{
    let length = out.len();
    append_settlement_line(owner, day, settlement, out)?;
    let appended = append_settlement_rows(settlement, short, out);
    if appended.is_err() {
        out.truncate(length);
    }
    appended
}
