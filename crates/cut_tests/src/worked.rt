//! Networks with known results, and descriptions of imports and results.

use cut_net::{Answer, Net, Priced};
use std::alloc::{AllocError, Global};

/// A path of two imports. The modules are A, B and M, in this order.
pub(crate) const TWO_IMPORTS: &[u8] = b"import A M 2\nimport M B 2\n";

/// A path of three imports. The modules are A, B, M and N.
pub(crate) const THREE_IMPORTS: &[u8] = b"import A M 2\nimport M N 2\nimport N B 2\n";

/// Two paths from A to D. The modules are A, B, C and D.
pub(crate) const DIAMOND: &[u8] = b"import A B 1\nimport A C 2\nimport B D 3\nimport C D 1\n";

/// A detour through V has weight 0, and isn't used. The modules are A, D, U and V.
pub(crate) const TWO_WAYS: &[u8] = b"import A U 5\nimport U D 1\nimport A V 0\nimport V U 3\n";

/// After a flow through U X and X T, S V continues only by cancelling flow on U X. The modules are S, T, U, V, X and Y.
pub(crate) const A_WAY_BACK: &[u8] =
    b"import S U 1\nimport S V 1\nimport U X 1\nimport U Y 1\nimport V X 1\nimport X T 1\nimport Y T 1\n";

fn read(alloc: Global, text: &[u8]) -> Result<Box<Net>, AllocError> {
    match Net::read(alloc, text) {
        Ok(net) => Ok(Box::new(alloc, net)?),
        Err(_) => Err(AllocError),
    }
}

/// The network of a text with these prices. With an empty text of prices it is unchanged.
pub(crate) fn net_of(alloc: Global, text: &[u8], prices: &[u8]) -> Result<Box<Net>, AllocError> {
    let net = read(alloc, text)?;
    if prices.is_empty() {
        return Ok(net);
    }
    match net.price(prices) {
        Ok(net) => Ok(Box::new(alloc, net)?),
        Err(_) => Err(AllocError),
    }
}

/// Appends each line after a word: the importing module, the imported one, and an amount.
pub(crate) fn append_lines(
    text: &mut String,
    word: &str,
    lines: &[Priced],
) -> Result<(), AllocError> {
    for line in lines {
        write!(text, " {word} {} {} {}", line.from, line.to, line.amount)?;
    }
    Ok(())
}

/// The result for two modules without the flow: the weight and the imports to remove, or the path of pinned imports.
pub(crate) fn describe_removals(alloc: Global, answer: &Answer) -> Result<String, AllocError> {
    match answer {
        Answer::Cut(cut) => {
            let mut text = format!(in alloc; "weight {}", cut.weight)?;
            append_lines(&mut text, "remove", &cut.imports)?;
            Ok(text)
        }
        Answer::Blocked { chain } => format!(in alloc; "blocked {:?}", chain.as_slice()),
    }
}

/// The result for two modules with the flow.
pub(crate) fn describe_answer(alloc: Global, answer: &Answer) -> Result<String, AllocError> {
    let mut text = describe_removals(alloc, answer)?;
    if let Answer::Cut(cut) = answer {
        append_lines(&mut text, "flow", &cut.flow)?;
    }
    Ok(text)
}
