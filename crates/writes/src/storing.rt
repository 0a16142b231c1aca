// Storing: an image takes the data bytes of a list at their addresses, and nothing else of it changes.
ghost use Rattle.std.specs.Prelude.{◌≡◌, map, ◌+◌, ◌^◌, ◌≤◌, ◌<◌, length, take, drop};
ghost use Rattle.std.proofs.lemmas.List.Edits.{sets};
ghost use Rattle.burst.specs.Burst.{burst_of, transactions, data_bytes};
ghost use Rattle.burst.specs.FrontLaws.{LeadsWithList};
ghost use Rattle.plan.specs.Update.{store_all};
ghost use Rattle.writes.specs.Stored.{Within, AllWithin};

use crate::writer::store;

// The data bytes of the transaction of `size` bytes at `from`. It answers how many it stored: none where the list or the image ends before.
// (A list has fewer than 2 ^ 16 transactions, each of fewer than 2 ^ 16 bytes.)
fn store_transaction(image: &mut [u8], bus: u8, list: &[u8], from: usize, size: usize) -> usize
    requires { (from < 2 ^ 33) × (size < 2 ^ 16) }
    ensures within { result ≤ size }
    ensures value { 3 ≤ size → from + size ≤ length list.now → Within (length image.old) (burst_of bus (take size (drop from list.now))) →
        (result ≡ length (burst_of bus (take size (drop from list.now))).bytes)
        × (image.new ≡
        sets image.old (burst_of bus (take size (drop from list.now))).start
        (burst_of bus (take size (drop from list.now))).bytes) }
{
    if size < 3 || list.len() < from + size {
        return 0;
    }
    let address = burst::head_address(bus, list[from], list[from + 1]);
    let len = size - 2;
    if image.len() < address + len {
        return 0;
    }
    store(image, address, list, from + 2, len)
}

// The data bytes of every transaction of the list at the front of these bytes. It answers how many it stored.
pub fn store_list(image: &mut [u8], bus: u8, list: &[u8]) -> usize
    ensures { LeadsWithList list.now → AllWithin (length image.old) (map (burst_of bus) (transactions list.now)) →
        (result ≡ data_bytes (map (burst_of bus) (transactions list.now)))
        × (image.new ≡ store_all (map (burst_of bus) (transactions list.now)) image.old) }
{
    let n = burst::size_at(list, 0);
    let mut stored = 0;
    let mut from = 4 + 2 * n;
    for i in 0..n {
        let size = burst::size_at(list, 4 + 2 * i);
        stored += store_transaction(image, bus, list, from, size);
        from += size;
    }
    stored
}
